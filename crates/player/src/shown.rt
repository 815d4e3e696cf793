//! Bytes that were shown before they are given out.

use crate::progress::Progress;

/// Bytes that a player has shown ahead: how many they are, and where it stands once they are given out.
#[derive(Debug, Clone, Copy)]
pub(crate) struct Shown {
    pub(crate) count: usize,
    pub(crate) progress: Progress,
}
