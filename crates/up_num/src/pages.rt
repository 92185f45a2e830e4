use std::marker::Model;

/// The number of a page of 4,096 bytes, counted from the start of its object.
#[derive(Clone, Copy, PartialEq, Eq, Debug)]
pub struct PageNo(pub u32);

/// Consecutive pages: at least one, all of them numbered below 2^32.
#[derive(Clone, Copy, PartialEq, Eq, Debug)]
pub struct PageRange {
    pub first: u32,
    pub count: u32,
}

impl Model for PageRange {
    ghost use Rattle.std.specs.Prelude.{◌+◌, ◌^◌, ◌<◌};
    ghost use Rattle.up_num.specs.Span.{Span};

    ghost Value = { Span };

    ghost view = { λ range. record { first = range.first; count = range.count } };

    ghost invariant = { λ range. (0 < range.count) × (range.first + range.count < 2 ^ 32) };

    ghost inverse = { λ span. record { first = span.first; count = span.count } };
}

/// Some bytes of an object: where they start, counted from the object's start, and how many they are.
/// An access is made of pieces that lie in one page each.
#[derive(Clone, Copy, PartialEq, Eq, Debug)]
pub struct Piece {
    pub off: u64,
    pub len: u32,
}

/// A run of pages that await writeback, all zero pages or none of them.
#[derive(Clone, Copy, PartialEq, Eq, Debug)]
pub struct DirtyRange {
    pub range: PageRange,
    pub zero: bool,
}
