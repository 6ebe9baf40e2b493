// The plan of a checked module realises it. Each theorem is the contract of a function that does nothing.
ghost use Rattle.gos_terms.specs.theorem.Terms.{TermIsRegular, TermIsRealised};
ghost use Rattle.gos_terms.specs.theorem.Modules.{ModuleIsOpen, ModuleIsRealised};

/// A node of a typed term, wired to supplies, is regular and rests where these are and do, and realises its term where these
/// realise theirs.
pub fn wired_terms()
    ensures regular { TermIsRegular }
    ensures realised { TermIsRealised }
{
    super::leaves::leaves_are_regular();
    super::regular_and_resting::parallel_nodes();
    super::regular_and_resting::block_nodes();
    super::regular_and_resting::forms();
    super::function_forms::applications();
    super::function_forms::projections();
    super::function_forms::reads();
    super::function_forms::functions();
    super::pair_forms::steady();
    super::pair_forms::cases();
    super::assignment_forms::assignments_of_any_target();
    super::assignment_forms::assignments_of_any_target_are_steady();
    super::ground_forms::leaves();
    super::ground_forms::parallel_nodes();
    super::ground_forms::blocks();
    super::control_forms::fork_cases();
    super::regular::regular_nodes();
    super::numbers::parts_are_kept();
}

/// The plan of a checked module realises its program with any supplies; and so it realises the module, if it is slim.
pub fn modules()
    ensures any { ModuleIsOpen }
    ensures realised { ModuleIsRealised }
{
    wired_terms();
    super::numbers::checked_is_kept();
    super::numbers::parallels_are_unsplit();
    super::wired::checked_modules();
    super::wired::starts();
    super::meanings::meanings();
    gos_supplies::laws::typing::supplies();
    super::regular::modules();
}
