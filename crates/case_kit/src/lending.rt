//! Values that are made, lent and let go.

/// Whether it is so of the value that was made. No where there is none.
///
/// A function that owns a snapshot or a world repeats all its drops in the proof, at each of its exits.
/// This one is proved once, for every type, and what calls it owns nothing.
pub fn is_so_of<T: Drop, F: Fn(&T) -> bool>(made: Option<T>, is_so: &F) -> bool
    requires { F.IsAlwaysCallable is_so.now }
{
    match made {
        Some(value) => is_so(&value),
        None => false,
    }
}
