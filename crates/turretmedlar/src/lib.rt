// The functions for C and Rust, under names with the prefix tm_ (include/turretmedlar.h). Each has the contract of the function that it passes on; of `bench`'s all
// that C can use. A lent list crosses as its address and its length.
#![tactic(auto)]

ghost use Rattle.std.specs.Prelude.{◌≡◌, ◌≤◌, length, take};
ghost use Rattle.theory.specs.Reasons.{idle};
ghost use Rattle.theory.specs.Levels.{permutation_of};
ghost use Rattle.theory.specs.CountUp.{call_levels};
ghost use Rattle.theory.specs.Spent.{Spends};
ghost use Rattle.permutation.specs.Answers.{push_answer, successor_answer};
ghost use Rattle.ranking.specs.Answers.{digits_answer, rank_answer, unrank_answer, value_by_number_answer, permutation_by_number_answer};
ghost use Rattle.charge.specs.Answers.{read_answer, place_answer, place_levels, call_answer};
ghost use Rattle.rewriting.specs.Answers.{rewrite_answer, rewrite_levels, rewrite_list, RewriteOf};
ghost use Rattle.symbols.specs.Answers.{store_answer, store_levels, StoreOf, symbol_answer};
ghost use Rattle.prefixcodes.specs.Claims.{PrefixBy, SymbolBy, IdleBy};
ghost use Rattle.uneven.specs.Answers.{uneven_prefix, uneven_store, uneven_levels, UnevenStored, uneven_symbol};
ghost use Rattle.bands.specs.Answers.{sure_answer, OrderExactly, sure_symbol_answer, SymbolExactly};
ghost use Rattle.reach.specs.Answers.{reach_answer, reach_list, ReachOf};
ghost use Rattle.multicell.specs.Answers.{rearrange_answer, rearrange_list, RaiseOf};
ghost use Rattle.sheet.specs.Sheet.{sheet as contents};
ghost use Rattle.layout.specs.Text.{text_of};
ghost use Rattle.text.specs.Answers.{print_answer, printed_on};
ghost use Rattle.text.specs.Claims.{text_bound};
ghost use Rattle.writer.specs.RoundTrips.{RoundTrips};
ghost use Rattle.listing.specs.LentLists.{lists, held_in, lists_number, lists_answer, lists_on};

use bands::read::read_bands;
use bands::read_symbol::read_symbol_bands;
use charge::answers::Pushes;
use charge::count_up::count_up;
use charge::push_level::push_level;
use charge::read::read;
use listing::write_lists::write_lists;
use multicell::answers::Rearranged;
use multicell::rearrange::rearrange;
use permutation::answers::{Permutation, Permuted, Placed};
use permutation::push::push;
use permutation::successor::successor;
use ranking::answers::{Digits, Ranked, Valued};
use ranking::digits::digits;
use ranking::permutation_of_value::permutation_by_number;
use ranking::rank::rank;
use ranking::unrank::unrank;
use ranking::value::value_by_number;
use reach::answers::Reached;
use reach::within_reach::within_reach;
use rewriting::rewrite::rewrite;
use symbols::answers::{Prefixed, Symbol};
use symbols::read_symbol::read_symbol;
use symbols::store::store;
use text::answers::Printed;
use text::bench::bench;
use uneven::prefix_uneven::prefix_uneven;
use uneven::read_uneven::read_uneven;
use uneven::store_uneven::store_uneven;
use writer::answers::Written;

#[unsafe(no_mangle)]
pub extern "C" fn tm_push(permutation: Permutation, place: usize) -> Permuted
    ensures { result ≡ push_answer permutation place }
{
    Permuted::from(push(permutation, place))
}

#[unsafe(no_mangle)]
pub extern "C" fn tm_successor(permutation: Permutation) -> Placed
    ensures { result ≡ successor_answer permutation }
{
    Placed::from(successor(permutation))
}

#[unsafe(no_mangle)]
pub extern "C" fn tm_digits(permutation: Permutation) -> Digits
    ensures { result ≡ digits_answer permutation }
{
    Digits::from(digits(permutation))
}

#[unsafe(no_mangle)]
pub extern "C" fn tm_rank(permutation: Permutation) -> Ranked
    ensures { result ≡ rank_answer permutation }
{
    Ranked::from(rank(permutation))
}

#[unsafe(no_mangle)]
pub extern "C" fn tm_unrank(n: usize, rank: u64) -> Permuted
    ensures { result ≡ unrank_answer n rank }
{
    Permuted::from(unrank(n, rank))
}

#[unsafe(no_mangle)]
pub extern "C" fn tm_value(permutation: Permutation, zero: u8) -> Valued
    ensures { result ≡ value_by_number_answer permutation zero }
{
    Valued::from(value_by_number(permutation, zero))
}

#[unsafe(no_mangle)]
pub extern "C" fn tm_permutation_of_value(n: usize, value: u64, zero: u8) -> Permuted
    ensures { result ≡ permutation_by_number_answer n value zero }
{
    Permuted::from(permutation_by_number(n, value, zero))
}

#[unsafe(no_mangle)]
pub extern "C" fn tm_read(levels: &[u16]) -> Permuted
    ensures { result ≡ read_answer levels.now }
{
    Permuted::from(read(levels))
}

#[unsafe(no_mangle)]
pub extern "C" fn tm_push_level(levels: &mut [u16], place: usize) -> Pushes
    ensures answer { result ≡ place_answer levels.old place }
    ensures levels_left { levels.new ≡ place_levels levels.old place }
    ensures spent { Spends levels.old levels.new result.charge }
{
    Pushes::from(push_level(levels, place))
}

#[unsafe(no_mangle)]
pub extern "C" fn tm_count_up(levels: &mut [u16], k: u32) -> Pushes
    ensures answer { result ≡ call_answer levels.old k }
    ensures levels_left { levels.new ≡ call_levels k levels.old }
    ensures spent { Spends levels.old levels.new result.charge }
{
    Pushes::from(count_up(levels, k))
}

#[unsafe(no_mangle)]
pub extern "C" fn tm_rewrite(levels: &mut [u16], target: Permutation, list: &mut [u8]) -> Pushes
    ensures answer { result ≡ rewrite_answer levels.old target (length list.old) }
    ensures levels_left { levels.new ≡ rewrite_levels levels.old target (length list.old) }
    ensures list_left { list.new ≡ rewrite_list levels.old target list.old }
    ensures reached { result.number ≡ 0 → RewriteOf levels.old target levels.new result.pushes }
    ensures spent { Spends levels.old levels.new result.charge }
{
    Pushes::from(rewrite(levels, target, list))
}

#[unsafe(no_mangle)]
pub extern "C" fn tm_store(levels: &mut [u16], m: u64, symbol: u64) -> Pushes
    ensures answer { result ≡ store_answer levels.old m symbol }
    ensures levels_left { levels.new ≡ store_levels levels.old m symbol }
    ensures stored { result.number ≡ 0 → StoreOf levels.old m symbol levels.new result.pushes }
    ensures spent { Spends levels.old levels.new result.charge }
{
    Pushes::from(store(levels, m, symbol))
}

#[unsafe(no_mangle)]
pub extern "C" fn tm_read_symbol(levels: &[u16], m: u64) -> Symbol
    ensures { result ≡ symbol_answer levels.now m }
{
    Symbol::from(read_symbol(levels, m))
}

#[unsafe(no_mangle)]
pub extern "C" fn tm_prefix_uneven(n: usize, weights: &[u16], m: u64, symbol: u64) -> Prefixed
    ensures answer { result ≡ uneven_prefix n weights.now m symbol }
    ensures by_code { result.number ≡ 0 → PrefixBy n weights.now symbol (take result.length result.cells) }
{
    Prefixed::from(prefix_uneven(n, weights, m, symbol))
}

#[unsafe(no_mangle)]
pub extern "C" fn tm_store_uneven(
    levels: &mut [u16],
    weights: &[u16],
    m: u64,
    symbol: u64,
) -> Pushes
    ensures answer { result ≡ uneven_store levels.old weights.now m symbol }
    ensures levels_left { levels.new ≡ uneven_levels levels.old weights.now m symbol }
    ensures stored { result.number ≡ 0 → UnevenStored levels.old weights.now m symbol levels.new result.pushes }
    ensures spent { Spends levels.old levels.new result.charge }
{
    Pushes::from(store_uneven(levels, weights, m, symbol))
}

#[unsafe(no_mangle)]
pub extern "C" fn tm_read_uneven(levels: &[u16], weights: &[u16], m: u64) -> Symbol
    ensures answer { result ≡ uneven_symbol levels.now weights.now m }
    ensures by_code { result.number ≡ 0 → SymbolBy (length levels.now) weights.now (permutation_of levels.now) result.symbol }
    ensures none { result.number ≡ idle → IdleBy (length levels.now) weights.now (permutation_of levels.now) }
{
    Symbol::from(read_uneven(levels, weights, m))
}

#[unsafe(no_mangle)]
pub extern "C" fn tm_read_bands(lowest: &[u16], highest: &[u16]) -> Permuted
    ensures answer { result ≡ sure_answer lowest.now highest.now }
    ensures exactly { OrderExactly lowest.now highest.now result }
{
    Permuted::from(read_bands(lowest, highest))
}

#[unsafe(no_mangle)]
pub extern "C" fn tm_read_symbol_bands(lowest: &[u16], highest: &[u16], m: u64) -> Symbol
    ensures answer { result ≡ sure_symbol_answer lowest.now highest.now m }
    ensures exactly { SymbolExactly lowest.now highest.now m result }
{
    Symbol::from(read_symbol_bands(lowest, highest, m))
}

#[unsafe(no_mangle)]
pub extern "C" fn tm_within_reach(levels: &[u16], r: usize, list: &mut [u8]) -> Reached
    ensures answer { result ≡ reach_answer levels.now r (length list.old) }
    ensures list_left { list.new ≡ reach_list levels.now r list.old }
    ensures reaching { ReachOf levels.now r result list.new }
{
    Reached::from(within_reach(levels, r, list))
}

#[unsafe(no_mangle)]
pub extern "C" fn tm_rearrange(
    q: usize,
    z: usize,
    old: &[u8],
    new: &[u8],
    list: &mut [u8],
) -> Rearranged
    ensures answer { result ≡ rearrange_answer q z old.now new.now (length list.old) }
    ensures list_left { list.new ≡ rearrange_list q z old.now new.now list.old }
    ensures least { RaiseOf q old.now new.now result list.new }
{
    Rearranged::from(rearrange(q, z, old, new, list))
}

#[unsafe(no_mangle)]
pub extern "C" fn tm_bench(sheet: &[u8], text: &mut [u8]) -> Printed
    ensures answer { result ≡ print_answer (text_of (contents sheet.now)) (length text.old) }
    ensures text_left { text.new ≡ printed_on (text_of (contents sheet.now)) text.old }
    ensures fits { text_bound ≤ length text.old → result.number ≡ 0 }
{
    Printed::from(bench(sheet, text))
}

#[unsafe(no_mangle)]
pub extern "C" fn tm_write_sheet(
    sizes: &[usize],
    levels: &[u16],
    zeros: &[u8],
    kinds: &[u8],
    groups: &[u8],
    numbers: &[u64],
    names: &[u8],
    out: &mut [u8],
) -> Written
    ensures answer { result ≡ lists_answer (lists sizes.now levels.now zeros.now kinds.now groups.now numbers.now names.now) (length out.old) }
    ensures out_left { out.new ≡ lists_on (lists sizes.now levels.now zeros.now kinds.now groups.now numbers.now names.now) out.old }
    ensures round_trips { lists_number (lists sizes.now levels.now zeros.now kinds.now groups.now numbers.now names.now) ≡ 0 → RoundTrips (held_in (lists sizes.now levels.now zeros.now kinds.now groups.now numbers.now names.now)) out.old result out.new }
{
    Written::from(write_lists(sizes, levels, zeros, kinds, groups, numbers, names, out))
}
