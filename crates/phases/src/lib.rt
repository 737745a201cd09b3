// The phases of a job by themselves, for the benchmark. Each gives one number of
// the answer, so that no phase can be left out.
#![tactic(auto, unfolding(run::specs::Answering::answer_for))]

ghost use Rattle.std.specs.Prelude.{◌≡◌};
ghost use Rattle.forms.specs.Limits.{unit_limits};
ghost use Rattle.jobfile.specs.File.{outcome_of};
ghost use Rattle.extremes.specs.Exact.{extreme_in};
ghost use Rattle.run.specs.Answering.{answer_for, quick_in};
ghost use Rattle.run.specs.Ready.{Ready};
ghost use Rattle.unit.specs.Readable.{Readable};
ghost use Rattle.unit.specs.Whole.{answer_of};
ghost use Rattle.phases.specs.Phase.{verdict_number, phase_number, phase_of};

use extremes::Extremes;
use fill::Verdict;
use forms::Head;
use geometry::{Rect, Sense, Spot};
use standing::Standing;
use sweep::Sorted;
use zoom::Asked;

// The exact run: the greatest area.
fn greatest_area(head: Head, sorted: &Sorted, amounts: &[u64]) -> u64
    requires { Ready head sorted.now.rects.now amounts.now }
    ensures { result ≡ (answer_for head sorted.now.rects.now amounts.now).exact.greatest.area }
{
    let exact = extremes::exact_run(sorted, head.size, head.window);
    exact.greatest.area
}

fn extreme_in(sense: Sense, e: Extremes) -> Spot
    ensures { result ≡ extreme_in sense e }
{
    match sense {
        Sense::Greatest => e.greatest,
        Sense::Least => e.least,
    }
}

// The exact run and the quick run for an extreme: the ceiling or the low end.
fn limit(sense: Sense, head: Head, sorted: &Sorted, amounts: &[u64]) -> u64
    requires { Ready head sorted.now.rects.now amounts.now }
    ensures { result ≡ (quick_in sense (answer_for head sorted.now.rects.now amounts.now)).last.limit }
{
    let size = head.size;
    let window = head.window;
    let exact = extremes::exact_run(sorted, size, window);
    let m = extreme_in(sense, exact);
    let asked = Asked {
        size,
        window,
        accuracy: head.accuracy,
        levels: head.levels,
    };
    let quick = zoom::quick_run(sense, sorted, asked, m);
    quick.last.limit
}

// A number for each verdict, as the C interface gives it.
fn number_of(v: Verdict) -> u64
    ensures { result ≡ verdict_number v }
{
    match v {
        Verdict::Safe => 0,
        Verdict::Broken(_) => 1,
        Verdict::Undecided(_) => 2,
    }
}

// The verdict, as a number.
fn judged_number(head: Head, sorted: &Sorted, amounts: &[u64]) -> u64
    requires { Ready head sorted.now.rects.now amounts.now }
    ensures { result ≡ verdict_number (answer_for head sorted.now.rects.now amounts.now).verdict }
{
    number_of(fill::judge(sorted, amounts, standing::plan_of(head)))
}

// The positions within the bounds. The order of the sides plays no part.
fn within(head: Head, rects: &[Rect], amounts: &[u64]) -> u64
    requires { Ready head rects.now amounts.now }
    ensures { result ≡ (answer_for head rects.now amounts.now).positions.within }
{
    let tally = positions::count_positions(rects, head.size, head.window, head.lower, head.upper);
    tally.within
}

// The phases have the numbers of the C interface.
fn sorted_phase(phase: u64, head: Head, sorted: &Sorted, amounts: &[u64]) -> u64
    requires { Ready head sorted.now.rects.now amounts.now }
    ensures { result ≡ phase_number phase (answer_for head sorted.now.rects.now amounts.now) }
{
    match phase {
        1 => greatest_area(head, sorted, amounts),
        2 => limit(Sense::Greatest, head, sorted, amounts),
        3 => limit(Sense::Least, head, sorted, amounts),
        4 => judged_number(head, sorted, amounts),
        5 => within(head, sorted.rects, amounts),
        _ => 0,
    }
}

// Sorting the sides counts with the other phases, and not with reading, which is
// phase 0.
fn phase_number(phase: u64, head: Head, rects: &[Rect], amounts: &[u64]) -> u64
    requires { Ready head rects.now amounts.now }
    ensures { result ≡ phase_number phase (answer_for head rects.now amounts.now) }
{
    if phase == 0 {
        return 0;
    }
    sorted_phase(phase, head, &Sorted::of(rects), amounts)
}

fn job_phase(phase: u64, job: &Standing) -> u64
    requires { Readable job.now }
    ensures { result ≡ phase_number phase (answer_of job.now) }
{
    phase_number(phase, job.head(), job.rects(), job.amounts())
}

// Reads a file, and runs one phase of an accepted one: 1 the exact run, 2 and 3
// that and the quick run for the greatest or the least window, 4 the verdict, 5 the
// positions, any other none. `phases_c` exports it.
pub fn density_phase(file: &[u8], phase: u64) -> u64
    ensures { result ≡ phase_of phase (outcome_of unit_limits file.now) }
{
    match jobfile::read(file) {
        Ok(job) => job_phase(phase, &job),
        Err(_) => 0,
    }
}
