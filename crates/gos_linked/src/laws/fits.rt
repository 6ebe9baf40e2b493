// What the definitions give for all builds. The theorem is the contract of a function that does nothing.

ghost use Rattle.gos_linked.specs.fits.Fits.{LinkedIsSlim, SlimIsNeverTooLarge, SlimIsSmall};

use gos_link::few_joints;

/// Where all plans of a build are slim, so is the linked plan, and `link` never answers `TooLarge`. A slim plan is small for
/// its weight.
pub fn slim_plans_fit()
    ensures slim { LinkedIsSlim }
    ensures fits { SlimIsNeverTooLarge }
    ensures small { SlimIsSmall }
{
    few_joints();
}
