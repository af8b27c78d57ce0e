//! Facts in a circle, which no artifacts make, since each name stands for what is named in it. They come one after the other, in each
//! order, and show what a table shows that is built of all.
ghost use Rattle.std.specs.Prelude.{◌≡◌};
ghost use Rattle.std.specs.Str.{bytes_eq};

mod check_ins;
mod clusters;
mod posts;

use fsl_name::Name;

/// Whether two names are the same.
fn are_same(first: Name, second: Name) -> bool
    ensures same { result ≡ bytes_eq first second }
{
    first == second
}
