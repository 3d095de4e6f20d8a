//! How a device fails.

/// The error of a device: a read, a write or a flush failed. It does not say why.
#[derive(Clone, Copy, PartialEq, Eq)]
pub struct IoFault;
