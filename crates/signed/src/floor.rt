// Division rounded down: the machine's, which is rounded toward zero, set right below zero.
ghost use Rattle.std.specs.Prelude.{◌≡◌, pos, nat_abs, ◌<ℤ◌};
ghost use Rattle.signed.specs.Floor.{times, rest};

// How many times the divisor goes into a number, and what is left over.
#[derive(Clone, Copy)]
pub struct Parts {
    pub times: i32,
    pub rest: i32,
}

// What is left over is never below zero.
pub fn split(n: i32, d: i32) -> Parts
    requires { pos 0 <ℤ d }
    ensures { (result.times ≡ times n (nat_abs d)) × (result.rest ≡ pos (rest n (nat_abs d))) }
{
    let q = n / d;
    let r = n % d;
    if r < 0 {
        let less = q - 1;
        let more = r + d;
        return Parts {
            times: less,
            rest: more,
        };
    }
    Parts { times: q, rest: r }
}
