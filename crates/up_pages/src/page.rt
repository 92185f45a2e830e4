ghost use Rattle.std.specs.Prelude.{◌≡◌, ◌+◌, ◌≤◌, length, option_to_list, IfSome};
ghost use Rattle.std.specs.Option.{option_copied};
ghost use Rattle.up_pages.specs.Pages.{look_of, frame_of, bytes_in, overwritten, with_state, same_state, state_after, marked, unclean_kind};

use up_bank::{Frame, FrameKind};
use up_num::PageState;

/// A page of a list. It is linear, since a frame is.
pub enum Page {
    Absent,
    Zero(PageState),
    Held(Frame, PageState),
}

/// What a look at a page tells. An absent page has no content, a zero page reads as zeros and has no frame, and a
/// held one has a frame of some kind.
#[derive(Clone, Copy, PartialEq, Eq, Debug)]
pub enum Look {
    Absent,
    Zero(PageState),
    Held(PageState, FrameKind),
}

fn is_same(one: PageState, other: PageState) -> bool
    ensures { result ≡ same_state one other }
{
    match (one, other) {
        (PageState::Clean, PageState::Clean) => true,
        (PageState::Dirty, PageState::Dirty) => true,
        (PageState::AwaitingClean, PageState::AwaitingClean) => true,
        _ => false,
    }
}

fn state_from(state: PageState, from: PageState, to: PageState) -> PageState
    ensures { result ≡ state_after from to state }
{
    if is_same(state, from) { to } else { state }
}

impl Page {
    pub(crate) fn look(&self) -> Look
        ensures { result ≡ look_of self.now }
    {
        match self {
            Page::Absent => Look::Absent,
            Page::Zero(state) => Look::Zero(*state),
            Page::Held(frame, state) => Look::Held(*state, frame.kind()),
        }
    }

    pub(crate) fn bytes(&self) -> Option<&[u8]>
        ensures same { option_copied result ≡ bytes_in self.now }
        ensures whole { IfSome result (λ bytes. length bytes.now ≡ 4096) }
    {
        match self {
            Page::Absent | Page::Zero(_) => None,
            Page::Held(frame, _) => Some(frame.bytes()),
        }
    }

    pub(crate) fn into_frame(self) -> Option<Frame>
        ensures { result ≡ frame_of self }
    {
        match self {
            Page::Absent | Page::Zero(_) => None,
            Page::Held(frame, _) => Some(frame),
        }
    }

    /// How many frames hold the page.
    pub(crate) fn frames(&self) -> u32
        ensures { result ≡ length (option_to_list (frame_of self.now)) }
    {
        match self {
            Page::Absent | Page::Zero(_) => 0,
            Page::Held(_, _) => 1,
        }
    }

    pub(crate) fn write(&mut self, at: u32, bytes: &[u8])
        requires { at + length bytes.now ≤ 4096 }
        ensures { self.new ≡ overwritten at bytes.now self.old }
    {
        match self {
            Page::Absent | Page::Zero(_) => {}
            Page::Held(frame, _) => frame.set(at, bytes),
        }
    }

    pub(crate) fn set_state(&mut self, to: PageState)
        ensures { self.new ≡ with_state to self.old }
    {
        match self {
            Page::Absent => {}
            Page::Zero(state) => *state = to,
            Page::Held(_, state) => *state = to,
        }
    }

    pub(crate) fn mark(&mut self, from: PageState, to: PageState, zero_only: bool)
        ensures { self.new ≡ marked from to zero_only self.old }
    {
        match self {
            Page::Absent => {}
            Page::Zero(state) => *state = state_from(*state, from, to),
            Page::Held(_, state) => {
                if !zero_only {
                    *state = state_from(*state, from, to);
                }
            }
        }
    }

    pub(crate) fn unclean_kind(&self) -> Option<bool>
        ensures { result ≡ unclean_kind self.now }
    {
        let (state, zero) = match self {
            Page::Absent => return None,
            Page::Zero(state) => (*state, true),
            Page::Held(_, state) => (*state, false),
        };
        if is_same(state, PageState::Clean) {
            return None;
        }
        Some(zero)
    }
}
