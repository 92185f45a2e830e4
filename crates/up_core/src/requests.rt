use crate::owed::Owed;
use up_model::Call;
use up_object::{FramesIn, Stepped};

/// A call that is to be done, by whom, and with which frames. It may hold frames, so it has to be spent.
pub struct Request {
    pub who: u32,
    pub epoch: u64,
    pub call: Call,
    pub frames: FramesIn,
}

/// Requests, the first to be done first.
pub type Requests = Owed<Request>;
/// What requests answered, in their order, with the frames that came back.
pub type Replies = Owed<Stepped>;
