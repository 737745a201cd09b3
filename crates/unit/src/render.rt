// From a file's bytes to the text of its answer.
ghost use Rattle.std.specs.Prelude.{◌≡◌};
ghost use Rattle.forms.specs.Limits.{unit_limits};
ghost use Rattle.jobfile.specs.File.{outcome_of};
ghost use Rattle.answers.specs.Lines.{text_of};
ghost use Rattle.unit.specs.Readable.{Readable};
ghost use Rattle.unit.specs.Rendering.{Rendering};
ghost use Rattle.unit.specs.Whole.{answer_of};

use answers::{Text, text_of};
use jobfile::Refusal;
use run::run;
use standing::Standing;

// The text of the answer to a job.
fn render_job(job: &Standing) -> Text
    requires { Readable job.now }
    ensures { result.items ≡ text_of (answer_of job.now) }
{
    text_of(run(job.head(), job.rects(), job.amounts()))
}

// Reads a file, and gives the text of its answer where it is accepted. What stands is
// lent and not moved, since it is large.
pub(crate) fn render(file: &[u8]) -> Result<Text, Refusal>
    ensures { Rendering (outcome_of unit_limits file.now) result }
{
    let mut job = Standing::new();
    jobfile::read_into(file, &mut job)?;
    Ok(render_job(&job))
}
