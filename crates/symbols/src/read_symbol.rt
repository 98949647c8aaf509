// The symbol whose prefix leads a permutation, and that of levels.
ghost use Rattle.std.specs.Prelude.{◌≡◌, ◌≤◌};
ghost use Rattle.theory.specs.Factorial.{factorial};
ghost use Rattle.theory.specs.Prefix.{prefix_length};
ghost use Rattle.permutation.specs.Records.{list_of, record_number};
ghost use Rattle.symbols.specs.Answers.{as_symbol, symbol_answer};
ghost use Rattle.symbols.specs.ByCode.{code_read};

use super::code::judge_code;
use super::number::prefix_number;
use charge::read::read;
use permutation::answers::Permutation;
use permutation::reasons::Refusal;
use permutation::validity::check;

// A permutation is read by a code of m symbols. For other crates too: it asks for a permutation, an m of at most n!, and the length p of the code's prefixes.
pub fn leading_symbol(permutation: Permutation, m: u64, p: usize) -> Result<u64, Refusal>
    requires { (record_number permutation ≡ 0) × (m ≤ factorial permutation.n) × (p ≡ prefix_length permutation.n m) }
    ensures { as_symbol result ≡ code_read permutation.n m (list_of permutation) }
{
    // it is a permutation: only its spots are wanted
    let spots = check(permutation)?;
    let symbol = prefix_number(&permutation.cells, &spots, permutation.n, p);
    if m <= symbol {
        return Err(Refusal::Idle);
    }
    Ok(symbol)
}

pub fn read_symbol(levels: &[u16], m: u64) -> Result<u64, Refusal>
    ensures { as_symbol result ≡ symbol_answer levels.now m }
{
    let permutation = read(levels)?;
    let p = judge_code(levels.len(), m)?;
    leading_symbol(permutation, m, p)
}
