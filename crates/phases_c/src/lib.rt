// The phases for other languages, as a static library.
#![tactic(auto)]

ghost use Rattle.std.specs.Prelude.{◌≡◌};
ghost use Rattle.forms.specs.Limits.{unit_limits};
ghost use Rattle.jobfile.specs.File.{outcome_of};
ghost use Rattle.phases.specs.Phase.{phase_of};

// The phases' entry of that name, under the same clause.
#[unsafe(no_mangle)]
pub extern "C" fn density_phase(file: &[u8], phase: u64) -> u64
    ensures { result ≡ phase_of phase (outcome_of unit_limits file.now) }
{
    phases::density_phase(file, phase)
}
