// The factorials of 0 to 20, as a table: all fit 64 bits; and their quotients n!/(n-p)!.
ghost use Rattle.std.specs.Prelude.{◌≡◌, ◌≤◌};
ghost use Rattle.theory.specs.Factorial as meaning;
ghost use Rattle.ranking.specs.Factorials.{factorial_table, factorial_within};

// A static, so that an entry is read where the table stands: a constant array is written to the stack at each use.
static FACTORIALS: [u64; 21] = [
    1,
    1,
    2,
    6,
    24,
    120,
    720,
    5040,
    40320,
    362880,
    3628800,
    39916800,
    479001600,
    6227020800,
    87178291200,
    1307674368000,
    20922789888000,
    355687428096000,
    6402373705728000,
    121645100408832000,
    2432902008176640000,
];

// The table, whole: a clause can speak of what a function gives, and of no static, so that each table has such a function.
#[tactic(auto, unfolding(crate::specs::Factorials::factorial_table))]
pub fn factorial_table() -> &'static [u64; 21]
    ensures { result.now ≡ factorial_table }
{
    &FACTORIALS
}

// n!, and 0 past 20!: that it answers for every n is promised.
pub fn factorial(n: usize) -> u64
    ensures { result ≡ factorial_within n }
{
    factorial_table().get(n).copied().unwrap_or(0)
}

// n! of at most twenty cells, which the caller knows that there are. For other crates too.
pub fn small_factorial(n: usize) -> u64
    requires { n ≤ 20 }
    ensures { result ≡ meaning.factorial n }
{
    factorial_table()[n]
}

// n!/(n-p)!. It fits 64 bits as n! does. For other crates: it asks for at most twenty cells, and p at most n. The two are no type: each job finds p anew for its n, and
// would make the pair at each call.
pub fn falling_factorial(n: usize, p: usize) -> u64
    requires { (n ≤ 20) × (p ≤ n) }
    ensures { result ≡ meaning.falling n p }
{
    small_factorial(n) / small_factorial(n - p)
}
