//! How sites stand between two events.
ghost use Rattle.std.specs.Prelude.{◌≡◌, ◌==◌, ◌≤◌, ◌/◌, ◌++◌, ◌∷◌, [], filter_map, length, map, not, option_map, IfOk, OnOk, IsTrue, Some};
ghost use Rattle.std.specs.List.{All, flat_map};
ghost use Rattle.sdd_moments.specs.obligations.All.{ClassState, Input, IsSiteOf, Log, Setting, T, U, dm_no, local_of, setting_of, view_of};
ghost use Rattle.sdd_inside.specs.declared.standing.Stage.TheVariants as stages;
ghost use Rattle.sdd_moments.specs.schedule.world.attempts.Lines.{awaited_by, lacked_by};
ghost use Rattle.sdd_moments.specs.schedule.world.data_module.Represents as data_represents;
ghost use Rattle.sdd_moments.specs.obligations.dm.Views as data_views;
ghost use Rattle.sdd_moments.specs.obligations.pipe.Pipes.{pipe_at};
ghost use Rattle.sdd_moments.specs.obligations.site_module.SiteLog as site;
ghost use Rattle.sdd_moments.specs.schedule.world.txn_module.Represents as tm_represents;
ghost use Rattle.sdd_moments.specs.schedule.world.u_module.Represents as u_represents;
ghost use Rattle.sdd_moments.specs.schedule.world.Represents.{Calm};
ghost use Rattle.sdd_watch.specs.Keeping.{IsLineInOrder, active_in, active_of, head_in, question_by, questions_in};
ghost use Rattle.sdd_watch.specs.States.{data_sites, lacks_in, phase_by, report_head, reported_dm, reported_tm, reported_u, stage_at, stage_by, state_of, unapplied_last, unapplied_of};
ghost use Rattle.sdd_watch.specs.Watching.{AreDones};

use crate::dones::Dones;
use sdd_inside::{Active, DmState, Head, Phase, Question, SiteState, Stage, TmState, UState};
use sdd_moments::{
    Answer, Asked, ClassNo, ClassNos, ClassRun, Conds, DataModule, DmNo, Line, Listed, NoMemory,
    Parcel, Site, TmNo, Ts, TxnModule, TxnNo, UModule, World,
};
use std::alloc::Global;
use std::collections::VecDeque;

/// The ticks of a clock with this bound.
fn ticks(bound: Ts) -> u64
    ensures { result ≡ bound.0 / 64 }
{
    bound.0 / 64
}

/// What an attempt does that awaits such answers.
fn phase_by(answer: Answer) -> Phase
    ensures { result ≡ phase_by answer }
{
    match answer {
        Answer::Ready => Phase::Reading,
        Answer::Values => Phase::Fetching,
        Answer::Reduced => Phase::Reducing,
        Answer::Rows => Phase::Shipping,
    }
}

/// The data modules whose answer to the attempt is missing.
fn missing_dms<'l>(line: &'l Line<'_>) -> &'l [DmNo]
    ensures { result.now ≡ map dm_no (lacked_by line.now.active) }
{
    line.missing_dms()
}

/// The attempt of a class that is under way, of the first transaction of its queue.
fn attempt(alloc: Global, line: &Line<'_>, answer: Answer) -> Result<Active, NoMemory>
    requires in_order { IsLineInOrder line.now }
    requires awaited { awaited_by line.now.active ≡ Some answer }
    ensures { IfOk result (λ attempt. active_in line.now ≡ Some attempt) }
{
    let lacks = DmNo::copy_all(alloc, missing_dms(line))?;
    let txn = line.first().unwrap_or(TxnNo(0));
    let time = line.active_ts().unwrap_or(Ts(0));
    Ok(Active {
        class: line.class(),
        txn,
        attempt: line.tries(),
        time,
        phase: phase_by(answer),
        lacks: Listed::from_vec(lacks),
    })
}

/// Adds the attempt of a class, where one is under way.
fn add_active(alloc: Global, line: &Line<'_>, actives: &mut Vec<Active>) -> Result<(), NoMemory>
    requires { IsLineInOrder line.now }
    ensures { OnOk result (
        actives.new.items ≡ actives.old.items ++ filter_map active_in (line.now ∷ [])) }
{
    match line.awaits() {
        None => Ok(()),
        Some(answer) => {
            actives.push(attempt(alloc, line, answer)?)?;
            Ok(())
        }
    }
}

/// The attempts of classes that are under way.
fn actives(alloc: Global, runs: &[ClassRun<'_>]) -> Result<Vec<Active>, NoMemory>
    requires { All (λ (k : ClassState). IsLineInOrder k.line) runs.now }
    ensures { IfOk result (λ actives. actives.items ≡ filter_map active_of runs.now) }
{
    let mut actives = Vec::new(alloc);
    for run in runs {
        add_active(alloc, run.line(), &mut actives)?;
    }
    Ok(actives)
}

/// A question to a class that has no answer.
fn question_by(class: ClassNo, asked: &Asked) -> Question
    ensures { result ≡ question_by class.0 asked.now }
{
    Question {
        class,
        from: asked.from,
        time: asked.time,
    }
}

/// The questions to a class that have no answer.
fn questions_to(
    alloc: Global,
    class: ClassNo,
    asks: &VecDeque<Asked>,
) -> Result<Vec<Question>, NoMemory>
    ensures { IfOk result (λ questions. questions.items ≡ map (question_by class.0) asks.now.items) }
{
    let mut questions = Vec::new(alloc);
    'asks: for asked in asks.iter() {
        questions.push(question_by(class, asked))?;
    }
    Ok(questions)
}

/// The questions to classes that have no answer, by class.
fn open_questions(alloc: Global, runs: &[ClassRun<'_>]) -> Result<Vec<Question>, NoMemory>
    ensures { IfOk result (λ questions. questions.items ≡ flat_map questions_in runs.now) }
{
    let mut questions = Vec::new(alloc);
    for run in runs {
        let mut more = questions_to(alloc, run.line().class(), run.asks())?;
        questions.append(&mut more)?;
    }
    Ok(questions)
}

fn tm_state(
    alloc: Global,
    tm: TmNo,
    is_down: bool,
    tm_module: &TxnModule<'_>,
) -> Result<TmState, NoMemory>
    requires { (s : Setting) × (log : site.Log) × tm_represents.Queues tm_module.now s log }
    ensures { IfOk result (λ state. (s : Setting) (log : site.Log) → tm_represents.Queues tm_module.now s log
        → state ≡ reported_tm s log tm.0 is_down) }
{
    let runs = tm_module.classes();
    let asks = open_questions(alloc, runs)?;
    let active = actives(alloc, runs)?;
    Ok(TmState {
        tm,
        is_down,
        clock: ticks(tm_module.bound()),
        on_hold: tm_module.is_on_hold(),
        owes_held: tm_module.owes_held(),
        asks: Listed::from_vec(asks),
        active: Listed::from_vec(active),
    })
}

/// Data modules as sites.
fn data_sites(alloc: Global, dms: &[DmNo]) -> Result<Vec<Site>, NoMemory>
    ensures { IfOk result (λ sites. sites.items ≡ data_sites dms.now) }
{
    Ok(dms.iter().map(|dm| Site::D(*dm)).collect(alloc)?)
}

/// Transaction modules as sites.
fn txn_sites(alloc: Global, tms: &[TmNo]) -> Result<Vec<Site>, NoMemory>
    ensures { IfOk result (λ sites. sites.items ≡ map (λ t. T t) tms.now) }
{
    Ok(tms.iter().map(|tm| Site::T(*tm)).collect(alloc)?)
}

/// What the module of U does, by whether an attempt is under way, the next transaction is served, or
/// the last one is.
fn stage_by(reading: bool, holding: bool, writing: bool) -> Stage
    ensures { result ≡ stage_by reading holding writing }
{
    if reading {
        return Stage::Reading;
    }
    if holding {
        return Stage::Holding;
    }
    if writing {
        return Stage::Writing;
    }
    Stage::Idle
}

/// What the module of U does.
fn stage_at(u_module: &UModule<'_>) -> Stage
    ensures { (s : Setting) (log : site.Log) → u_represents.Represents u_module.now s log → result ≡ stage_at s log }
{
    let idle = u_module.line().is_idle();
    stage_by(!idle, u_module.is_awaiting_helds(), u_module.is_releasing())
}

/// From which sites an answer is missing, where these data modules haven't said that they applied
/// what was committed last, as far as U waits for that.
fn missing_sites(
    alloc: Global,
    u_module: &UModule<'_>,
    stage: Stage,
    unapplied: &[DmNo],
) -> Result<Vec<Site>, NoMemory>
    ensures { IfOk result (λ sites. (s : Setting) (log : site.Log) → u_represents.Represents u_module.now s log
        → (stage ≡ stages.Writing → unapplied.now ≡ unapplied_last s log)
        → sites.items ≡ lacks_in s log stage) }
{
    match stage {
        Stage::Reading => data_sites(alloc, missing_dms(u_module.line())),
        Stage::Holding => txn_sites(alloc, u_module.missing_tms()?.as_slice()),
        Stage::Writing => data_sites(alloc, unapplied),
        Stage::Idle => Ok(Vec::new(alloc)),
    }
}

fn u_state(
    alloc: Global,
    u_module: &UModule<'_>,
    stage: Stage,
    unapplied: &[DmNo],
) -> Result<UState, NoMemory>
    requires { (s : Setting) × (log : site.Log) × u_represents.Represents u_module.now s log }
    ensures { IfOk result (λ state. (s : Setting) (log : site.Log) → u_represents.Represents u_module.now s log
        → stage ≡ stage_at s log → (stage ≡ stages.Writing → unapplied.now ≡ unapplied_last s log)
        → state ≡ reported_u s log) }
{
    let lacks = missing_sites(alloc, u_module, stage, unapplied)?;
    let mut active = Vec::new(alloc);
    add_active(alloc, u_module.line(), &mut active)?;
    Ok(UState {
        clock: ticks(u_module.bound()),
        stage,
        lacks: Listed::from_vec(lacks),
        active: Listed::from_vec(active),
    })
}

/// The head of the pipe of a class: a READ that waits, with its conditions that aren't met, or a
/// WRITE, with the classes whose READ waits and must not see it.
fn head_in(class: ClassNo, conds: Option<Conds>, readers: Option<ClassNos>) -> Option<Head>
    ensures { result ≡ head_in class conds readers }
{
    match conds {
        Some(conds) => Some(Head::Waits { class, conds }),
        None => match readers {
            Some(readers) => Some(Head::Held { class, readers }),
            None => None,
        },
    }
}

/// Whether each message in the pipe of a class is processed.
fn is_idle(dm_module: &DataModule, class: ClassNo) -> bool
    ensures { result ≡ (length (pipe_at dm_module.now.value.pipes class.0).unprocessed == 0) }
{
    dm_module.count_unprocessed(class) == 0
}

/// The head of the pipe of a class, where it can't be processed.
fn report_head(dm_module: &DataModule, class: ClassNo) -> Result<Option<Head>, NoMemory>
    ensures { IfOk result (λ head. (s : Setting) (log : site.Log) → data_represents.Represents dm_module.now s log
        → class.0 ≤ length s.catalogue.classes
        → head ≡ report_head (view_of s log) (data_views.class_view s log class.0)) }
{
    if is_idle(dm_module, class) {
        return Ok(None);
    }
    let conds = dm_module.unmet_conds(class)?;
    let readers = dm_module.holders(class)?;
    Ok(head_in(class, conds, readers))
}

/// Adds the head of the pipe of a class, where it can't be processed.
fn add_head(dm_module: &DataModule, class: ClassNo, heads: &mut Vec<Head>) -> Result<(), NoMemory>
    ensures { OnOk result ((s : Setting) (log : site.Log) → data_represents.Represents dm_module.now s log
        → class.0 ≤ length s.catalogue.classes
        → heads.new.items ≡ heads.old.items
        ++ filter_map (report_head (view_of s log)) (data_views.class_view s log class.0 ∷ [])) }
{
    match report_head(dm_module, class)? {
        None => Ok(()),
        Some(head) => {
            heads.push(head)?;
            Ok(())
        }
    }
}

fn dm_state(
    alloc: Global,
    dm: DmNo,
    is_down: bool,
    dm_module: &DataModule,
) -> Result<DmState, NoMemory>
    ensures { IfOk result (λ state. (s : Setting) (log : site.Log) → data_represents.Represents dm_module.now s log
        → state ≡ reported_dm s log dm.0 is_down) }
{
    let mut heads = Vec::new(alloc);
    for class in 0..dm_module.pipe_count() {
        add_head(dm_module, ClassNo(class), &mut heads)?;
    }
    Ok(DmState {
        dm,
        is_down,
        heads: Listed::from_vec(heads),
    })
}

/// The data modules that haven't said that they applied what U committed last.
fn missing_applies(alloc: Global, world: &World<'_>, dones: &Dones) -> Result<Vec<DmNo>, NoMemory>
    requires { (g : Input) × (log : Log) × Calm world.now g log }
    ensures { IfOk result (λ missing. (g : Input) (log : Log) → Calm world.now g log
        → AreDones g log dones.now → missing.items ≡ unapplied_of g log) }
{
    let whole = world.whole();
    whole.law_is_sound();
    let committed = world.sites().u_module().last_commit();
    let missing = dones.missing_dms(alloc, committed, whole.dms())?;
    Ok(missing)
}

/// The same where U waits for that, and none elsewhere.
fn awaited_applies(
    alloc: Global,
    world: &World<'_>,
    dones: &Dones,
    stage: Stage,
) -> Result<Vec<DmNo>, NoMemory>
    requires { (g : Input) × (log : Log) × Calm world.now g log }
    ensures { IfOk result (λ missing. (g : Input) (log : Log) → Calm world.now g log
        → AreDones g log dones.now → stage ≡ stages.Writing → missing.items ≡ unapplied_of g log) }
{
    match stage {
        Stage::Writing => missing_applies(alloc, world, dones),
        Stage::Idle | Stage::Holding | Stage::Reading => Ok(Vec::new(alloc)),
    }
}

/// How U stands, where these DONEs were handed to it.
fn state_of_u(alloc: Global, world: &World<'_>, dones: &Dones) -> Result<UState, NoMemory>
    requires { (g : Input) × (log : Log) × Calm world.now g log }
    ensures { IfOk result (λ state. (g : Input) (log : Log) → Calm world.now g log
        → AreDones g log dones.now → state ≡ reported_u (setting_of g U) (local_of g U log)) }
{
    let u_module = world.sites().u_module();
    let stage = stage_at(u_module);
    let missing = awaited_applies(alloc, world, dones, stage)?;
    let state = u_state(alloc, u_module, stage, missing.as_slice())?;
    Ok(state)
}

/// How a site stands, where these DONEs were handed to U.
pub(crate) fn state(
    alloc: Global,
    world: &World<'_>,
    at: Site,
    dones: &Dones,
) -> Result<SiteState, NoMemory>
    requires { (g : Input) × (log : Log) × IsSiteOf g at × Calm world.now g log }
    ensures { IfOk result (λ state. (g : Input) (log : Log) → IsSiteOf g at → Calm world.now g log
        → AreDones g log dones.now → state ≡ state_of g log at) }
{
    let sites = world.sites();
    match at {
        Site::U => Ok(SiteState::U(state_of_u(alloc, world, dones)?)),
        Site::T(tm) => {
            let down = world.is_down(Site::T(tm));
            Ok(SiteState::T(tm_state(alloc, tm, down, sites.txn_module(tm))?))
        }
        Site::D(dm) => {
            let down = world.is_down(Site::D(dm));
            Ok(SiteState::D(dm_state(alloc, dm, down, sites.data_module(dm))?))
        }
    }
}
