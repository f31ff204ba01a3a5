// The reader of bundles for C, over the crate bundle: the same promise, called by C. It accepts any
// input.
#![tactic(auto)]

ghost use Rattle.std.specs.Prelude.{◌≡◌};
ghost use Rattle.bundle.specs.Bundle.{step_at, answer_of};

use bundle::BundleStep;

// The step at a place of a bundle. With end and broken start and length are 0, and next is the place.
#[unsafe(no_mangle)]
pub extern "C" fn panel_bundle_step(bundle: &[u8], place: usize) -> BundleStep
    ensures { result ≡ answer_of (step_at bundle.now place) place }
{
    bundle::panel_bundle_step(bundle, place)
}
