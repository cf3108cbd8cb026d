//! A workload: the generated session is played, and its report is counted.

ghost use Rattle.std.specs.Prelude.{◌≡◌, ◌≢◌, ◌≤◌, ◌∷◌, length, ℕ, [], OnOk, IfErr, IfOk, IsErrOf};
ghost use Rattle.ground_io.specs.Counts.{HasCause};
ghost use Rattle.ground_io.specs.Trace.{Adds};
ghost use Rattle.script_lines.specs.Report.{report_text};
ghost use Rattle.script_lines.specs.declared.line.Grammar.TheVariants.{Session};
ghost use Rattle.script_lines.specs.Line.{line_says};
ghost use Rattle.alarm_core.specs.Sites.{IsSite};
ghost use Rattle.state_codec.specs.Sizes.{most_text};
ghost use Rattle.site_config.specs.declared.fault.SiteFault.{SiteFault};
ghost use Rattle.site_config.specs.Sites.{site_of};
ghost use Rattle.work_load.specs.Site.{workload_site};
ghost use Rattle.alarm_server.specs.Emission.{Ends};
ghost use Rattle.alarm_server.specs.Faults.{IsWorkloadFault};
ghost use Rattle.alarm_server.specs.Script.{refused_line};
ghost use Rattle.alarm_server.specs.Report.{report_of};
ghost use Rattle.alarm_server.specs.Tallies.{tally_of as tally_over};
ghost use Rattle.alarm_server.specs.Status.{IsInnerFault, IsSiteFault, of_memory, status_of};
ghost use Rattle.alarm_server.specs.GeneratedSite.{generated_site};
ghost use Rattle.alarm_server.specs.Workloads.{AcceptsGenerated, ReadsGenerated, RefusesGenerated, summary_line, summary_of};

use crate::emission::emit;
use crate::session::play_session;
use crate::status::Status;
use crate::tally::Tally;
use alarm_core::{Core, Site};
use alarm_journal::Press;
use bac_values::ReportLine;
use ground_io::{Ground, MemoryGround, MemorySource};
use site_config::read_site;
use state_codec::need;
use std::alloc::Global;
use work_load::{make_script, make_site};

// The generated site, with its text.
#[tactic(auto, using(crate::proofs::GeneratedText::reads, crate::proofs::GeneratedText::short))]
fn generated_site(alloc: Global) -> Result<(Site, Vec<u8>), Status>
    ensures site { IfOk result (λ made. made.0 ≡ generated_site) }
    ensures text { IfOk result (λ made. made.1.items ≡ workload_site) }
    ensures keeps { IfOk result (λ made. IsSite made.0) }
    ensures short { IfOk result (λ made. length made.1.items ≤ most_text) }
    ensures memory { IfErr result (λ status. status ≡ Status.NoMemory) }
    ensures fault { IfErr result IsInnerFault }
    ensures no_line { IfErr result IsSiteFault }
{
    let text = make_site(alloc)?;
    let site = read_site(alloc, text.as_slice())?;
    Ok((site, text))
}

// A press on a blank device in memory, as large as a site's journal needs, none of whose calls fails.
fn blank_press(alloc: Global, site: &Site, text: &[u8]) -> Result<Press<MemoryGround>, Status>
    requires site { IsSite site.now }
    requires short { length text.now ≤ most_text }
    ensures memory { IfErr result (λ status. status ≡ Status.NoMemory) }
    ensures fault { IfErr result IsInnerFault }
{
    let size = need(site, text.len() as u64);
    let octets = vec![in alloc; 0u8; size as usize]?;
    let device = MemoryGround::new(alloc, octets, Vec::new(alloc));
    match Press::open(alloc, device, text, size) {
        Ok((press, _opened)) => Ok(press),
        Err((_device, _fault)) => Err(Status::NoMemory),
    }
}

// How a session over a source and a blank ground in memory ends. No call of theirs is to fail, so the ground fails for want
// of memory alone, and the source not at all.
fn of_memory(status: Status) -> Status
    ensures status { result ≡ of_memory status }
{
    match status {
        Status::ReadFault | Status::EmitFault | Status::DiskFault | Status::JournalRefused { .. } =>
            Status::NoMemory,
        other => other,
    }
}

// How many lines of each kind the report of a site has, by a script in memory, over a press that is blank and whose ground
// fails for want of memory alone. Nothing comes before it.
fn tally_on<G: Ground + Drop>(
    alloc: Global,
    press: Press<G>,
    site: &Site,
    script: &mut MemorySource,
) -> Result<Tally, Status>
    requires site { IsSite site.now }
    ensures tally { IfOk result (λ tally. tally ≡ tally_over (report_of site.now [] script.old.left)) }
    ensures accepted { OnOk result (refused_line (line_says Session) script.old.left ≡ None) }
    ensures refused { (line : ℕ) → result ≡ Err (Status.ScriptRefused line) → refused_line (line_says Session) script.old.left ≡ Some line }
    ensures takes_site { (fault : SiteFault) → result ≢ Err (Status.SiteRefused fault) }
    ensures fault { IfErr result IsInnerFault }
{
    let mut core = Core::start(alloc, site)?;
    let (device, played) = play_session(alloc, press, &mut core, script);
    drop(core);
    drop(device);
    match played {
        Ok(tally) => Ok(tally),
        Err(status) => Err(of_memory(status)),
    }
}

// How many lines of each kind the report of a site has, by a script in memory. Nothing comes before it.
fn tally_by(
    alloc: Global,
    site: &Site,
    text: &[u8],
    script: &mut MemorySource,
) -> Result<Tally, Status>
    requires site { IsSite site.now }
    requires short { length text.now ≤ most_text }
    ensures tally { IfOk result (λ tally. tally ≡ tally_over (report_of site.now [] script.old.left)) }
    ensures accepted { OnOk result (refused_line (line_says Session) script.old.left ≡ None) }
    ensures refused { (line : ℕ) → result ≡ Err (Status.ScriptRefused line) → refused_line (line_says Session) script.old.left ≡ Some line }
    ensures takes_site { (fault : SiteFault) → result ≢ Err (Status.SiteRefused fault) }
    ensures fault { IfErr result IsInnerFault }
{
    let press = blank_press(alloc, site, text)?;
    tally_on(alloc, press, site, script)
}

// How many lines of each kind the report of the generated site has, by the script that is drawn from a seed.
fn tally_of(alloc: Global, seed: u64, count: u32) -> Result<Tally, Status>
    ensures tally { IfOk result (λ tally. summary_of seed count ≡ summary_line seed count tally ∷ []) }
    ensures accepted { OnOk result (AcceptsGenerated seed count) }
    ensures refused { (line : ℕ) → result ≡ Err (Status.ScriptRefused line) → RefusesGenerated seed count line }
    ensures takes_site { (fault : SiteFault) → result ≢ Err (Status.SiteRefused fault) }
    ensures fault { IfErr result IsInnerFault }
{
    let script = make_script(alloc, seed, count)?;
    let (site, text) = generated_site(alloc)?;
    let mut script = MemorySource::new(script, Vec::new(alloc));
    tally_by(alloc, &site, text.as_slice(), &mut script)
}

/// A session of the generated site by the script that is drawn from a seed: what goes out is one line, which tells how many
/// lines of each kind its report has. The site's text is never refused. Nothing is read.
#[tactic(auto, using(crate::proofs::GeneratedText::reads))]
pub fn workload<G: Ground>(
    alloc: Global,
    seed: u64,
    count: u32,
    device: &mut G,
) -> Result<(), Status>
    ensures ends { Ends Adds report_text (status_of result) (summary_of seed count) (G.told device.old) (G.told device.new) }
    ensures reads { ReadsGenerated }
    ensures accepted { OnOk result (AcceptsGenerated seed count) }
    ensures refused { (line : ℕ) → result ≡ Err (Status.ScriptRefused line) → RefusesGenerated seed count line }
    ensures takes_site { (fault : SiteFault) → result ≢ Err (Status.SiteRefused fault) }
    ensures fault { IfErr result IsWorkloadFault }
    ensures unread { result ≢ Err Status.ReadFault }
    ensures size { G.size device.new ≡ G.size device.old }
    ensures disk { G.disk_faults device.new ≡ G.disk_faults device.old }
    ensures emit_cause { HasCause (G.emit_faults device.old) (G.emit_faults device.new) (IsErrOf result Status.EmitFault) }
    ensures no_fault { OnOk result (G.emit_faults device.new ≡ G.emit_faults device.old) }
{
    let tally = tally_of(alloc, seed, count)?;
    let summary = ReportLine::Summary {
        seed,
        count,
        events: tally.events,
        changes: tally.changes,
        sends: tally.sends,
        full: tally.full,
    };
    emit(alloc, device, &summary)?;
    Ok(())
}
