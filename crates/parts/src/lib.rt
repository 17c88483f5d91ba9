// A part of one lent area, copied to another. The library's `copy_from_slice` says the same, but calls memmove, which the archive for C would then need
// from outside: here it is a loop.
#![tactic(auto)]

ghost use Rattle.std.specs.Prelude.{◌≡◌, length};

// Each place of `to` takes what `from` has there.
pub fn copy<T: Copy>(to: &mut [T], from: &[T])
    requires { length to.old ≡ length from.now }
    ensures after { to.new ≡ from.now }
{
    for i in 0..from.len() {
        to[i] = from[i];
    }
}
