//! The steps of a bank's calls on its table, by seats of the table.
ghost use Rattle.std.specs.Prelude.{◌≡◌, ◌≢◌, ℕ, ◌∷◌, ◌+◌, ◌-◌, ◌*◌, ◌/◌, ◌%◌, ◌<◌, ◌≤◌, ◌^◌, [], length, replicate, slice_index, min, suc, MatchOption, IfOk, Some, false};
ghost use Rattle.std.specs.Int.{bit_at};
ghost use Rattle.up_bank.specs.Bytes.{zero_bytes, Extends};
ghost use Rattle.up_bank.specs.Banked.{newcomer};
ghost use Rattle.up_bank.specs.Find.{words_of, bits_set};
ghost use Rattle.up_bank.specs.Standing.{frames_of, most_frames};
ghost use Rattle.up_bank.specs.SeatSteps.{AsKnown, saw, fetched, merged, Put};
ghost use Rattle.up_bank.specs.Scan.{Idle, Rests, Claimed, Got, IsIn, Missed, Counting, frames_in};

use crate::Memory;
use crate::bank::Bank;
use crate::frame::Frame;
use crate::page_bytes::PageBytes;
use crate::rule::{
    Agree, Board, Clear, Hide, Lend, Look, Place, Reclaim, Regain, Repay, Restore, Shape, Shed,
    Show, Tell, Unite, Vacate,
};
use atomic_table::{Refused, Table};
use std::alloc::{AllocError, Global};

// The words of a bank's table when all frames are at home.
fn opening_words(alloc: Global, frames: u32) -> Result<Vec<u64>, Memory>
    requires { frames ≤ most_frames }
    ensures long { IfOk result (λ words. length words.items ≡ words_of frames * 2) }
    ensures home { IfOk result (λ words. (i : ℕ) → i < words_of frames → slice_index words.items (i * 2) ≡ 2 ^ 64 - 1) }
    ensures empty { IfOk result (λ words. (i : ℕ) → i < words_of frames → slice_index words.items (i * 2 + 1) ≡ 0) }
{
    let mut words = Vec::new(alloc);
    for _ in 0..(frames + 63) / 64 {
        words.push(u64::MAX)?;
        words.push(0)?;
    }
    Ok(words)
}

// So many frames' bytes, all zeros.
fn opening_slots(alloc: Global, frames: u32) -> Result<Vec<Option<PageBytes>>, Memory>
    ensures { IfOk result (λ slots. slots.items ≡ replicate frames (Some zero_bytes)) }
{
    let mut slots = Vec::new(alloc);
    for _ in 0..frames {
        slots.push(Some(PageBytes::new(alloc)?))?;
    }
    Ok(slots)
}

// How many of the word's first bits are set.
fn count_bits(was: u64, count: u32) -> u32
    requires { count ≤ 64 }
    ensures set { result ≡ bits_set was count }
    ensures small { result ≤ count }
{
    let mut set = 0;
    for bit in 0..count {
        set += ((was >> bit) & 1) as u32;
    }
    set
}

impl Bank {
    // The table of a new bank.
    pub(crate) fn board(alloc: Global, shape: Shape) -> Result<(Board, Place), Memory>
        requires some { 0 < shape.frames }
        requires few { shape.frames ≤ most_frames }
        ensures key { IfOk result (λ made. made.0.shared.key ≡ shape) }
        ensures slots { IfOk result (λ made. made.0.shared.table_id.slots ≡ shape.frames) }
        ensures words { IfOk result (λ made. made.0.shared.table_id.words ≡ words_of shape.frames * 2) }
        ensures place { IfOk result (λ made. (made.1.table_id ≡ made.0.shared.table_id) × (made.1.me ≡ (newcomer shape.frames shape.kind, []))) }
    {
        let words = opening_words(alloc, shape.frames)?;
        let slots = opening_slots(alloc, shape.frames)?;
        match Table::new(alloc, words.as_slice(), slots, &shape) {
            Ok(made) => Ok(made),
            Err(Refused { slots: _ }) => Err(AllocError),
        }
    }

    // What a word of the bitmap of home frames is.
    fn look(&self, place: &mut Place, word: u32) -> u64
        requires bank { place.old.table_id ≡ self.now.table }
        requires within { word < words_of self.now.table.slots }
        requires acts { place.old.me.0.rests ≡ false }
        ensures same { place.new.table_id ≡ place.old.table_id }
        ensures found { place.new.me ≡ (saw place.old.me.0 word result, place.old.me.1) }
        ensures known { AsKnown place.old.me.0 word result }
    {
        let _ = &self.shape;
        let place_of_word = word as usize * 2;
        self.table.shared.load::<Look>(place, place_of_word)
    }

    // Tries one frame, and answers the word that it found.
    fn try_claim(&self, place: &mut Place, number: u32) -> (u64, Option<Frame>)
        requires bank { place.old.table_id ≡ self.now.table }
        requires kind { place.old.me.0.kind ≡ self.now.kind }
        requires within { number < self.now.table.slots }
        requires idle { Idle place.old.me }
        ensures same { place.new.table_id ≡ place.old.table_id }
        ensures known { AsKnown place.old.me.0 (number / 64) result.0 }
        ensures got { MatchOption result.1
            ((bit_at result.0 (number % 64) ≡ 0) × (place.new.me ≡ (fetched place.old.me.0 number result.0, [])))
            (λ frame. (frame.bank ≡ self.now) × (frame.number ≡ number) × Claimed place.old.me.0 place.new.me number frame.bytes (number / 64 + 1) (number / 64 + 1) number (number + 1)) }
    {
        let shape = &self.shape;
        let bit = number % 64;
        let word = number as usize / 64 * 2;
        let found = self
            .table
            .shared
            .fetch_and::<Clear>(place, word, !(1u64 << bit));
        if (found >> bit) & 1 != 1 {
            return (found, None);
        }
        let slot = self.table.shared.exchange(place, number as usize, None);
        let block = slot.unwrap();
        self.table
            .shared
            .fetch_or::<Vacate>(place, word + 1, 1u64 << bit);
        let own = self.table.shared.split_seat::<Shed>(place);
        let frame = Frame {
            place: own,
            number,
            kind: shape.kind,
            block,
        };
        (found, Some(frame))
    }

    // Tries the frames of one word, as long as none was got.
    fn claim_in(&self, place: &mut Place, word: u32) -> Option<Frame>
        requires bank { place.old.table_id ≡ self.now.table }
        requires kind { place.old.me.0.kind ≡ self.now.kind }
        requires within { word < words_of self.now.table.slots }
        requires idle { Idle place.old.me }
        ensures same { place.new.table_id ≡ place.old.table_id }
        ensures got { let from = word * 64 in let to = from + frames_in self.now word in
            MatchOption result (Missed place.old.me.0 place.new.me word (word + 1) from to (IsIn self.now word)) (Got self.now place.old.me.0 place.new.me word (word + 1) from to) }
    {
        let frames = self.shape.frames;
        let first = word * 64;
        let count = (frames - first).min(64);
        let mut left = self.look(place, word);
        if left == 0 {
            return None;
        }
        for bit in 0..count {
            if (left >> bit) & 1 != 1 {
                continue;
            }
            let (found, frame) = self.try_claim(place, first + bit);
            if let Some(frame) = frame {
                return Some(frame);
            }
            // What this find has out isn't tried.
            left &= found;
        }
        None
    }

    // Tries the frames of all words, as long as none was got.
    pub(crate) fn claim_at(&self, place: &mut Place) -> Option<Frame>
        requires bank { place.old.table_id ≡ self.now.table }
        requires kind { place.old.me.0.kind ≡ self.now.kind }
        requires idle { Idle place.old.me }
        ensures same { place.new.table_id ≡ place.old.table_id }
        ensures got { let frames = frames_of self.now in let words = words_of frames in
            MatchOption result (Missed place.old.me.0 place.new.me 0 words 0 frames (λ number. number < frames)) (Got self.now place.old.me.0 place.new.me 0 words 0 frames) }
    {
        let frames = self.shape.frames;
        for word in 0..(frames + 63) / 64 {
            if let Some(frame) = self.claim_in(place, word) {
                return Some(frame);
            }
        }
        None
    }

    // Brings a frame home, whose own seat is spent.
    pub(crate) fn give_at(&self, place: &mut Place, own: Place, number: u32, block: PageBytes)
        requires bank { (place.old.table_id ≡ self.now.table) × (own.table_id ≡ self.now.table) }
        requires within { number < self.now.table.slots }
        requires idle { Idle place.old.me }
        requires own { (own.me.0.has ≡ suc number) × (own.me.0.empty ≡ 1) × (own.me.1 ≡ []) × Rests own.me.0 }
        ensures same { place.new.table_id ≡ place.old.table_id }
        ensures put { (was : ℕ) × Put number block (place.old.me.0, (number, Some block) ∷ []) was place.new.me }
    {
        let _ = &self.shape;
        let bit = 1u64 << (number % 64);
        let word = number as usize / 64 * 2;
        self.table.shared.join_seat::<Regain>(place, own);
        self.table
            .shared
            .fetch_and::<Reclaim>(place, word + 1, !bit);
        drop(
            self.table
                .shared
                .exchange(place, number as usize, Some(block)),
        );
        self.table.shared.fetch_or::<Restore>(place, word, bit);
    }

    // Gives up a seat, and looks what the other then knows.
    pub(crate) fn unite(&self, place: &mut Place, given: Place)
        requires bank { (place.old.table_id ≡ self.now.table) × (given.table_id ≡ self.now.table) }
        requires idle { Idle place.old.me × Idle given.me }
        ensures same { place.new.table_id ≡ place.old.table_id }
        ensures both { place.new.me ≡ (merged place.old.me.0 given.me.0, place.old.me.1) }
        ensures seen { Extends place.old.me.0.gives place.new.me.0.gives × Extends given.me.0.gives place.new.me.0.gives }
    {
        let _ = &self.shape;
        self.table.shared.join_seat::<Unite>(place, given);
        self.table.shared.load::<Agree>(place, 1);
    }

    // Shows two frames' own seats to be of different frames, by a token that goes to and fro. Both seats stay as they were.
    pub(crate) fn tell_apart(&self, one: &mut Place, number: u32, other: &mut Place)
        requires bank { (one.old.table_id ≡ self.now.table) × (other.old.table_id ≡ self.now.table) }
        requires has { one.old.me.0.has ≡ suc number }
        requires rest { Rests one.old.me.0 × Rests other.old.me.0 }
        requires bare { (one.old.me.1 ≡ []) × (other.old.me.1 ≡ []) }
        ensures bank { (one.new.table_id ≡ one.old.table_id) × (other.new.table_id ≡ other.old.table_id) }
        ensures same { (one.new.me ≡ one.old.me) × (other.new.me ≡ other.old.me) }
        ensures apart { other.old.me.0.has ≢ suc number }
    {
        let _ = &self.shape;
        let _ = number;
        let token = self.table.shared.split_seat::<Lend>(one);
        self.table.shared.join_seat::<Show>(other, token);
        self.table.shared.load::<Tell>(other, 1);
        let back = self.table.shared.split_seat::<Hide>(other);
        self.table.shared.join_seat::<Repay>(one, back);
    }

    // Looks at each word once, and counts the frames that it has at home.
    pub(crate) fn free_at(&self, place: &mut Place) -> u32
        requires bank { place.old.table_id ≡ self.now.table }
        requires idle { Idle place.old.me }
        ensures same { place.new.table_id ≡ place.old.table_id }
        ensures count { Counting place.old.me.0 place.new.me self.now.table.slots (words_of self.now.table.slots) result }
    {
        let frames = self.shape.frames;
        let mut free = 0;
        for word in 0..(frames + 63) / 64 {
            let was = self.look(place, word);
            free += count_bits(was, (frames - word * 64).min(64));
        }
        free
    }
}
