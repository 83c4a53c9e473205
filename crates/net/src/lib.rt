// The net of what is bought and what is sold, with its sign, and its size.
#![tactic(auto)]

ghost use Rattle.std.specs.Prelude.{◌≡◌, ◌≤◌, ◌<◌, ◌^◌, nat_abs};
ghost use Rattle.rulebook.specs.Kept.{net};

// Buys less sells: minus where more is sold, 0 where they are equal.
pub fn net(buys: u64, sells: u64) -> i64
    requires { (buys ≤ 5_000_000_000_000_000_000) × (sells ≤ 5_000_000_000_000_000_000) }
    ensures { result ≡ net buys sells }
{
    (buys as i64) - (sells as i64)
}

// How far a net is from 0, either way; 0 of 0.
pub fn size_of(z: i64) -> u64
    requires { nat_abs z < 2 ^ 63 }
    ensures { result ≡ nat_abs z }
{
    z.unsigned_abs()
}

// How far apart buys and sells are; 0 where they are equal.
pub fn net_size(buys: u64, sells: u64) -> u64
    requires { (buys ≤ 5_000_000_000_000_000_000) × (sells ≤ 5_000_000_000_000_000_000) }
    ensures { result ≡ nat_abs (net buys sells) }
{
    size_of(net(buys, sells))
}
