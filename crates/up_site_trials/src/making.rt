//! The calls of a worked journal, made on a site over a disk in memory.
ghost use Rattle.std.specs.Prelude.{◌≡◌, ◌<◌, ◌≤◌, length, true, IfOk, IfErr, IfSome};
ghost use Rattle.up_model.specs.Reply.{counts_frames};
ghost use Rattle.up_object.specs.Change.{AllOwn};
ghost use Rattle.up_site.specs.Standing.{most_pages};
ghost use Rattle.up_site_trials.specs.Over.{IsOver};

use crate::steps::{may_act, pages_of, step_of};
use std::alloc::Global;
use up_bank::FrameKind;
use up_check::{ReplayBanks, Sizes, is_fair, kind_of, may_call};
use up_claims::{SiteReply, SiteStep};
use up_disk::MemDisk;
use up_model::{Birth, Brought, Call, Entries, Entry, Role};
use up_num::Memory;
use up_object::{Step, Stepped};
use up_site::Site;
use up_text::Named;

/// What came of a journal's calls: the entries, the disk, and the most pages that the object may ever have.
#[derive(Drop)]
pub(crate) struct Made {
    pub(crate) entries: Entries,
    pub(crate) disk: MemDisk,
    pub(crate) most: u32,
}

/// The most pages that an object may ever have.
fn most_pages(birth: &Birth) -> u32
    ensures { result ≡ most_pages birth.now }
{
    match birth.limit {
        Some(limit) => birth.pages.max(limit),
        None => birth.pages,
    }
}

/// Makes the calls of a journal on a new site over a disk with this many blocks.
pub(crate) fn make_all(
    alloc: Global,
    worked: &Named,
    disk: MemDisk,
    blocks: usize,
) -> Result<Option<Made>, Memory>
    requires { blocks ≡ length disk.start }
    ensures { IfOk result (λ made. IfSome made (λ made. made.most ≤ length made.disk.start)) }
{
    let birth = worked.birth;
    if !birth.image || !is_fair(&birth) || blocks < most_pages(&birth) as usize {
        return Ok(None);
    }
    let sizes = Sizes {
        ordinary: 8,
        loaned: 1,
    };
    let mut banks = ReplayBanks::new(alloc, sizes)?;
    let made = make_over(alloc, &mut banks, worked, disk);
    banks.end();
    made
}

/// The same, with frames of these banks.
fn make_over(
    alloc: Global,
    banks: &mut ReplayBanks,
    worked: &Named,
    disk: MemDisk,
) -> Result<Option<Made>, Memory>
    requires image { worked.now.birth.image ≡ true }
    requires users { (0 < worked.now.birth.users) × (worked.now.birth.users ≤ 64) }
    requires pagers { (0 < worked.now.birth.pagers) × (worked.now.birth.pagers ≤ 64) }
    requires room { most_pages worked.now.birth ≤ length disk.start }
    ensures { IfOk result (λ made. IfSome made (λ made. made.most ≤ length made.disk.start)) }
{
    let object = banks.birth(alloc, worked.birth)?;
    let mut site = Site::new(alloc, object, Some(disk));
    let made = make_each(alloc, &mut site, banks, worked.entries.as_slice());
    let (object, disk) = site.close();
    let most = most_pages(&object.born());
    let (entries, held) = object.end();
    banks.bring_home(held);
    made?;
    match disk {
        Some(disk) => Ok(Some(Made {
            entries,
            disk,
            most,
        })),
        None => Ok(None),
    }
}

fn make_each(
    alloc: Global,
    site: &mut Site<MemDisk>,
    banks: &mut ReplayBanks,
    entries: &[Entry],
) -> Result<(), Memory>
    requires over { IsOver site.old banks.old }
    ensures over { IsOver site.new banks.new }
    ensures same { banks.new ≡ banks.old }
{
    for entry in entries {
        make(alloc, site, banks, entry)?;
    }
    Ok(())
}

/// Makes the call or step that an entry tells of, where it may be made.
fn make(
    alloc: Global,
    site: &mut Site<MemDisk>,
    banks: &mut ReplayBanks,
    entry: &Entry,
) -> Result<(), Memory>
    requires over { IsOver site.old banks.old }
    ensures over { IsOver site.new banks.new }
    ensures same { banks.new ≡ banks.old }
{
    if let Some(step) = step_of(&entry.call) {
        return make_step(alloc, site, banks, entry, step);
    }
    if let Some(pages) = pages_of(&entry.call) {
        return resize(alloc, site, banks, entry, pages);
    }
    match entry.call {
        Call::Leave { role } => leave(alloc, site, banks, entry, role),
        _ => act(alloc, site, banks, entry),
    }
}

/// Makes a step of the sample pager. A user's begin is of pages that a survey has found.
fn make_step(
    alloc: Global,
    site: &mut Site<MemDisk>,
    banks: &mut ReplayBanks,
    entry: &Entry,
    step: SiteStep,
) -> Result<(), Memory>
    requires over { IsOver site.old banks.old }
    ensures over { IsOver site.new banks.new }
    ensures same { banks.new ≡ banks.old }
{
    let users = site.object().born().users;
    if matches!(entry.call, Call::Begin { .. }) && entry.who < users {
        let Some(found) = take_step(alloc, site, banks, entry, SiteStep::Survey)? else {
            return Ok(());
        };
        if let SiteReply::Surveyed(set) = found {
            take_step(alloc, site, banks, entry, SiteStep::PickFrom(set))?;
        }
        return Ok(());
    }
    take_step(alloc, site, banks, entry, step)?;
    Ok(())
}

/// What a step answers; nothing where the actor may not make it.
fn take_step(
    alloc: Global,
    site: &mut Site<MemDisk>,
    banks: &mut ReplayBanks,
    entry: &Entry,
    step: SiteStep,
) -> Result<Option<SiteReply>, Memory>
    requires over { IsOver site.old banks.old }
    ensures over { IsOver site.new banks.new }
    ensures same { banks.new ≡ banks.old }
{
    let brought = entry.call.brought();
    if !counts(brought) || !site.may_step(entry.who, &step, brought) {
        return Ok(None);
    }
    let Some(frames) = banks.hand(alloc, FrameKind::Ordinary, brought)? else {
        return Ok(None);
    };
    match site.site_step(alloc, entry.who, entry.epoch, step, frames) {
        Ok((answer, _woke, back)) => {
            banks.bring_home(back);
            Ok(Some(answer))
        }
        Err((memory, back)) => {
            banks.bring_home(back);
            Err(memory)
        }
    }
}

fn resize(
    alloc: Global,
    site: &mut Site<MemDisk>,
    banks: &mut ReplayBanks,
    entry: &Entry,
    pages: u32,
) -> Result<(), Memory>
    requires over { IsOver site.old banks.old }
    ensures over { IsOver site.new banks.new }
    ensures same { banks.new ≡ banks.old }
{
    match site.resize(alloc, entry.who, entry.epoch, pages) {
        Ok((_answer, _woke, back)) => {
            banks.bring_home(back);
            Ok(())
        }
        Err((memory, back)) => {
            banks.bring_home(back);
            Err(memory)
        }
    }
}

fn leave(
    alloc: Global,
    site: &mut Site<MemDisk>,
    banks: &mut ReplayBanks,
    entry: &Entry,
    role: Role,
) -> Result<(), Memory>
    requires over { IsOver site.old banks.old }
    ensures over { IsOver site.new banks.new }
    ensures same { banks.new ≡ banks.old }
{
    let left = site.leave(alloc, entry.who, entry.epoch, role);
    bring_back(banks, left)
}

fn act(
    alloc: Global,
    site: &mut Site<MemDisk>,
    banks: &mut ReplayBanks,
    entry: &Entry,
) -> Result<(), Memory>
    requires over { IsOver site.old banks.old }
    ensures over { IsOver site.new banks.new }
    ensures same { banks.new ≡ banks.old }
{
    let brought = entry.call.brought();
    let call = entry.call.copy_bringing(alloc, brought)?;
    if !counts(brought) || !may_act(&call) || !may_call(site.object(), entry.who, &call) {
        return Ok(());
    }
    let Some(frames) = banks.hand(alloc, kind_of(&call), brought)? else {
        return Ok(());
    };
    let acted = site.act(alloc, entry.who, entry.epoch, call, frames);
    bring_back(banks, acted)
}

/// What came back of a call goes home.
fn bring_back(banks: &mut ReplayBanks, step: Step) -> Result<(), Memory>
    requires ok { IfOk step (λ s. AllOwn banks.old s.back.items) }
    requires err { IfErr step (λ failed. AllOwn banks.old failed.1.items) }
    ensures { banks.new ≡ banks.old }
{
    match step {
        Ok(Stepped { reply: _, back }) => {
            banks.bring_home(back);
            Ok(())
        }
        Err((memory, back)) => {
            banks.bring_home(back);
            Err(memory)
        }
    }
}

/// Frames that are said to be brought are at least one.
fn counts(brought: Brought) -> bool
    ensures { result ≡ counts_frames brought }
{
    match brought {
        Brought::Frames(count) => count > 0,
        Brought::Nothing | Brought::Scanned => true,
    }
}
