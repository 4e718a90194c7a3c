//! What a program has at a place of a rung.

use crate::cell::{Cell, Joint};

/// What is at a place of a rung: a cell, whether power can leave it on its right, the joint on its left, and whether a
/// vertical link goes from that joint to the row below.
#[derive(Clone, Copy)]
pub struct Site {
    pub cell: Cell,
    pub right_link: bool,
    pub joint: Joint,
    pub vertical: bool,
}
