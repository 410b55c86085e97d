//! Values of one word or two, read by the place of their image.

pub(crate) use cache_core::read_scalar;
