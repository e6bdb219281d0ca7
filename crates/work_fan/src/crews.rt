//! The crew of one.

/// A crew that is the calling thread alone.
///
/// Each layer that has jobs has a trait of its own for who does them, over the concrete type of these jobs: a
/// thread takes no value of a type that is only known by its bounds.
#[derive(Clone, Copy, Drop)]
pub struct Alone;
