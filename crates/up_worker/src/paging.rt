ghost use Rattle.std.specs.Prelude.{◌≡◌, IfOk, OnOk, OnErr};
ghost use Rattle.up_worker.specs.Program.{resting, line_on, says_with, wish_for, turn_wish, turned, sync_wish, synced, serve_wish, served, answered, object_of, hears_in, turn_begins, sync_begins, serve_begins};

use crate::task::{
    Task, frames_asked, frames_first, is_busy, new_set, step_of, sync_after, task_after,
};
use crate::wish::{Heard, Wanted, Wish};
use std::alloc::Global;
use up_claims::{Chosen, SiteReply, SiteStep};
use up_model::{Brought, Call, Role};
use up_num::Memory;

/// A line of steps on an object.
#[derive(Clone, Copy, PartialEq, Eq, Debug)]
pub enum SiteLine {
    /// Some turns of a worker.
    Turns(u32),
    /// A user's sync.
    Syncs(u32),
    /// What a worker does behind its last line.
    Serves(u32),
}

/// How far an actor has come with the steps of a line. A worker's task outlasts the line.
#[derive(Debug, Drop)]
pub struct Paging {
    pub line: Option<SiteLine>,
    pub task: Task,
    /// How many steps are left of a worker's turns.
    pub left: u32,
    /// The pages that a sync has still to begin to write back.
    pub set: Chosen,
    pub wants: Wanted,
    /// What was gathered for the step that is wished.
    pub hand: Brought,
}

impl Paging {
    /// Before the first line.
    pub fn new(alloc: Global) -> Paging
        ensures { result ≡ resting }
    {
        Paging {
            line: None,
            task: Task::Pick { write_first: false },
            left: 0,
            set: Chosen::none(alloc),
            wants: Wanted::Nothing,
            hand: Brought::Nothing,
        }
    }

    // Notes what is wished, and what is in hand for it.
    fn say(&mut self, hand: Brought, wish: &Wish)
        ensures { self.new ≡ (says_with self.old hand wish.now).paging }
    {
        self.line = line_on(self.line, wish);
        self.wants = wish.wanted();
        self.hand = hand;
    }

    /// Begins a worker's turns, and says the first wish. After want of memory all is as it was.
    pub fn begin_turns(&mut self, alloc: Global, object: u32, count: u32) -> Result<Wish, Memory>
        ensures wish { IfOk result (λ wish. wish ≡ (turn_begins self.old object count).wish) }
        ensures ok { OnOk result (self.new ≡ (turn_begins self.old object count).paging) }
        ensures err { OnErr result (self.new ≡ self.old) }
    {
        let wish = turn_wish(alloc, count, object, self.task, &self.set)?;
        self.line = Some(SiteLine::Turns(object));
        self.left = count;
        self.say(Brought::Nothing, &wish);
        Ok(wish)
    }

    /// Begins a user's sync, and says the first wish.
    pub fn begin_sync(&mut self, alloc: Global, object: u32) -> Wish
        ensures wish { result ≡ (sync_begins self.old object).wish }
        ensures paging { self.new ≡ (sync_begins self.old object).paging }
    {
        let wish = Wish::Site {
            object,
            step: SiteStep::Survey,
        };
        self.line = Some(SiteLine::Syncs(object));
        self.task = Task::Survey;
        self.set = Chosen::none(alloc);
        self.say(Brought::Nothing, &wish);
        wish
    }

    /// Begins what a worker does behind its last line, and says the first wish. After want of memory all is
    /// as it was.
    pub fn begin_serving(&mut self, alloc: Global, object: u32) -> Result<Wish, Memory>
        ensures wish { IfOk result (λ wish. wish ≡ (serve_begins self.old object).wish) }
        ensures ok { OnOk result (self.new ≡ (serve_begins self.old object).paging) }
        ensures err { OnErr result (self.new ≡ self.old) }
    {
        let wish = wish_for(alloc, object, self.task, &self.set)?;
        self.line = Some(SiteLine::Serves(object));
        self.say(Brought::Nothing, &wish);
        Ok(wish)
    }

    /// Hears what became of the last wish of a line, and says the next one. After want of memory all is as it
    /// was.
    pub fn next(&mut self, alloc: Global, line: SiteLine, heard: &Heard) -> Result<Wish, Memory>
        ensures wish { IfOk result (λ wish. wish ≡ (hears_in line self.old heard.now).wish) }
        ensures ok { OnOk result (self.new ≡ (hears_in line self.old heard.now).paging) }
        ensures err { OnErr result (self.new ≡ self.old) }
    {
        match heard {
            Heard::Site(answer) => self.answered(alloc, line, answer),
            Heard::Brought(brought) => {
                let step = step_of(alloc, self.task, &self.set)?;
                let object = object_of(line);
                let wish = Wish::Site { object, step };
                self.say(*brought, &wish);
                Ok(wish)
            }
            Heard::Done => {
                let wish = wish_for(alloc, object_of(line), self.task, &self.set)?;
                self.say(Brought::Nothing, &wish);
                Ok(wish)
            }
            Heard::Replied(_) => {
                let wish = Wish::LineEnd;
                self.say(Brought::Nothing, &wish);
                Ok(wish)
            }
        }
    }

    // After a step of a line.
    fn answered(
        &mut self,
        alloc: Global,
        line: SiteLine,
        answer: &SiteReply,
    ) -> Result<Wish, Memory>
        ensures wish { IfOk result (λ wish. wish ≡ (answered line self.old answer.now).wish) }
        ensures ok { OnOk result (self.new ≡ (answered line self.old answer.now).paging) }
        ensures err { OnErr result (self.new ≡ self.old) }
    {
        match line {
            SiteLine::Turns(object) => self.turned(alloc, object, answer),
            SiteLine::Syncs(object) => self.synced(alloc, object, answer),
            SiteLine::Serves(object) => self.served(alloc, object, answer),
        }
    }

    // After a step of a worker's turns.
    fn turned(&mut self, alloc: Global, object: u32, answer: &SiteReply) -> Result<Wish, Memory>
        ensures wish { IfOk result (λ wish. wish ≡ (turned object self.old answer.now).wish) }
        ensures ok { OnOk result (self.new ≡ (turned object self.old answer.now).paging) }
        ensures err { OnErr result (self.new ≡ self.old) }
    {
        match frames_asked(answer) {
            Some(count) => {
                let wish = Wish::Gather(count);
                self.say(Brought::Nothing, &wish);
                Ok(wish)
            }
            None => {
                let task = task_after(self.task, answer);
                let left = self.left.saturating_sub(1);
                let wish = turn_wish(alloc, left, object, task, &self.set)?;
                self.task = task;
                self.left = left;
                self.say(Brought::Nothing, &wish);
                Ok(wish)
            }
        }
    }

    // After a step of a sync. A new set is stored where nothing can fail any more.
    fn synced(&mut self, alloc: Global, object: u32, answer: &SiteReply) -> Result<Wish, Memory>
        ensures wish { IfOk result (λ wish. wish ≡ (synced object self.old answer.now).wish) }
        ensures ok { OnOk result (self.new ≡ (synced object self.old answer.now).paging) }
        ensures err { OnErr result (self.new ≡ self.old) }
    {
        let Some(task) = sync_after(answer) else {
            let wish = Wish::LineEnd;
            self.say(Brought::Nothing, &wish);
            return Ok(wish);
        };
        let busy = is_busy(answer);
        match new_set(alloc, &self.set, answer)? {
            Some(set) => {
                let wish = sync_wish(alloc, busy, object, task, &set)?;
                self.task = task;
                self.set = set;
                self.say(Brought::Nothing, &wish);
                Ok(wish)
            }
            None => {
                let wish = sync_wish(alloc, busy, object, task, &self.set)?;
                self.task = task;
                self.say(Brought::Nothing, &wish);
                Ok(wish)
            }
        }
    }

    // After a step behind a worker's last line.
    fn served(&mut self, alloc: Global, object: u32, answer: &SiteReply) -> Result<Wish, Memory>
        ensures wish { IfOk result (λ wish. wish ≡ (served object self.old answer.now).wish) }
        ensures ok { OnOk result (self.new ≡ (served object self.old answer.now).paging) }
        ensures err { OnErr result (self.new ≡ self.old) }
    {
        match frames_asked(answer) {
            Some(count) => {
                let wish = Wish::Gather(count);
                self.say(Brought::Nothing, &wish);
                Ok(wish)
            }
            None => {
                let task = task_after(self.task, answer);
                let wish = serve_wish(alloc, answer, object, task, &self.set)?;
                self.task = task;
                self.say(Brought::Nothing, &wish);
                Ok(wish)
            }
        }
    }
}

// A line is over where its end is said.
fn line_on(line: Option<SiteLine>, wish: &Wish) -> Option<SiteLine>
    ensures { result ≡ line_on line wish.now }
{
    match wish {
        Wish::LineEnd => None,
        _ => line,
    }
}

fn object_of(line: SiteLine) -> u32
    ensures { result ≡ object_of line }
{
    match line {
        SiteLine::Turns(object) | SiteLine::Syncs(object) | SiteLine::Serves(object) => object,
    }
}

// The step of a task, or the frames for it.
fn wish_for(alloc: Global, object: u32, task: Task, set: &Chosen) -> Result<Wish, Memory>
    ensures { IfOk result (λ wish. wish ≡ wish_for object task set.now) }
{
    let first = frames_first(task);
    if first > 0 {
        return Ok(Wish::Gather(first));
    }
    let step = step_of(alloc, task, set)?;
    Ok(Wish::Site { object, step })
}

fn turn_wish(
    alloc: Global,
    left: u32,
    object: u32,
    task: Task,
    set: &Chosen,
) -> Result<Wish, Memory>
    ensures { IfOk result (λ wish. wish ≡ turn_wish left object task set.now) }
{
    if left == 0 {
        return Ok(Wish::LineEnd);
    }
    wish_for(alloc, object, task, set)
}

fn sync_wish(
    alloc: Global,
    busy: bool,
    object: u32,
    task: Task,
    set: &Chosen,
) -> Result<Wish, Memory>
    ensures { IfOk result (λ wish. wish ≡ sync_wish busy object task set.now) }
{
    if busy {
        return Ok(Wish::Park { object });
    }
    wish_for(alloc, object, task, set)
}

fn serve_wish(
    alloc: Global,
    answer: &SiteReply,
    object: u32,
    task: Task,
    set: &Chosen,
) -> Result<Wish, Memory>
    ensures { IfOk result (λ wish. wish ≡ serve_wish answer.now object task set.now) }
{
    match answer {
        SiteReply::Idle { detached: true } | SiteReply::StoreFailed { detached: true } => {
            Ok(Wish::Act {
                object,
                call: Call::Leave { role: Role::Pager },
            })
        }
        SiteReply::Idle { detached: false } => Ok(Wish::Park { object }),
        _ => wish_for(alloc, object, task, set),
    }
}
