// What the definitions give for every plan, and for a small one. Each theorem is the contract of a function that does
// nothing.
ghost use Rattle.gos_expand.specs.Acceptance.{CircuitIsAccepted, CircuitIsSmall, LaidIsAccepted, AllCutCycles, LaidIsSmall};
ghost use Rattle.gos_expand.specs.Choices.{LaidByIsOne};
ghost use Rattle.gos_expand.specs.Facts.{FactsMakeLists};
ghost use Rattle.gos_expand.specs.FastRuns.{FollowersRise, FastIsAccepted, FastIsSmall, FastMakesLists, FastStaysSilent, FastIsOne};
ghost use Rattle.gos_expand.specs.Into.{LaysIntoNone};
ghost use Rattle.gos_expand.specs.Kept.{AllKeep, AllFit, AllKeepPaths, AreFew};
ghost use Rattle.gos_expand.specs.Rings.{RingsAreCycles};
ghost use Rattle.gos_expand.specs.Runs.{CircuitMakesLists, CircuitStaysSilent, LaidMakesLists, LaidStaysSilent};
ghost use Rattle.gos_expand.specs.SmallChoices.{SkipKeepsNone, AllAreTooMany, RingKeepsOne, NoneAreTooFew};
ghost use Rattle.gos_expand.specs.SmallFast.{SkipIsFast, RegistersAreNotFast, SkipHasDepths, OneIsNoDepth, NoneIsNoDepth};
ghost use Rattle.gos_expand.specs.SmallNets.{SkipIsLaid, SkipIsChosen, RingIsLeft, SkipCanBeLaid};
ghost use Rattle.gos_expand.specs.SmallPools.{SkipIsRaised, SkipIsNotTwice, PortIsNotTwice};

/// The gates of each kind in range keep the laws, by each order that they are made for, what is asked of an accepted netlist,
/// and what is asked of paths without registers. They are few for the handshakes of their part.
pub fn gates_keep()
    ensures keep { AllKeep }
    ensures fit { AllFit }
    ensures paths { AllKeepPaths }
    ensures few { AreFew }
{}

/// The plan of `skip` is laid out as five cells: run, done, a register in each direction of its joint, and its gate;
/// without the registers that are not chosen. It is a plan of which `laid_is_accepted` speaks. A choice may leave a
/// combinational cycle.
pub fn small_nets()
    ensures laid { SkipIsLaid }
    ensures chosen { SkipIsChosen }
    ensures ring { RingIsLeft }
    ensures can { SkipCanBeLaid }
{}

/// The plan of `skip` keeps no register where few are kept: all of them are too many. A sequence whose first request
/// comes back as its caller's keeps that of the request alone: none are too few.
pub fn small_choices()
    ensures none { SkipKeepsNone }
    ensures all { AllAreTooMany }
    ensures one { RingKeepsOne }
    ensures ring { NoneAreTooFew }
{}

/// A policy gives a plan one netlist: which registers are kept where few are is decided place by place.
pub fn one_layout()
    ensures { LaidByIsOne }
{}

/// `expand` is `expand_into` over a new pool: behind no cells the netlist of a plan is as it is. Behind its own netlist
/// that of `skip` is raised by five nets, and names neither the first one's nets nor has its ports.
pub fn into_pools()
    ensures none { LaysIntoNone }
    ensures raised { SkipIsRaised }
    ensures cells { SkipIsNotTwice }
    ensures ports { PortIsNotTwice }
{}

/// The netlist of a plan is accepted where it has no combinational cycle, however it is laid out. It has no more cells than the
/// plan's size, where each order that gates are made for is of as many handshakes as the part has.
pub fn circuits_are_accepted()
    ensures accepted { CircuitIsAccepted }
    ensures few { CircuitIsSmall }
{}

/// The netlist of a plan is accepted where it has no combinational cycle, whichever directions of joints keep their
/// registers: its nets are there, and widths and ports are right. It has no combinational cycle where all keep them. It
/// has no more cells than the plan's size.
pub fn laid_is_accepted()
    ensures accepted { LaidIsAccepted }
    ensures cut { AllCutCycles }
    ensures few { LaidIsSmall }
{}

/// Cycles that show what a plan's ends and parts make of them are lists of the plan, and prompt: a direction of a joint
/// that keeps its registers delays by one cycle, and one that doesn't passes on what comes, but along no ring.
pub fn lists_of_facts()
    ensures { FactsMakeLists }
{}

/// The cycles of the netlist of a plan that can be laid out are lists of the plan, and prompt, whichever directions of
/// joints keep their registers, where it has no combinational cycle.
pub fn cycles_are_lists()
    ensures { LaidMakesLists }
{}

/// The cycles of the netlist of a plan are lists of the plan, and prompt, where ranks go up wherever what comes in passes on in one
/// cycle, and each order that gates are made for is that of the ranks. Its outputs are silent, where its inputs are clean.
pub fn circuits_make_lists()
    ensures lists { CircuitMakesLists }
    ensures silent { CircuitStaysSilent }
{}

/// A fast circuit of a plan that can be laid out: ranks go up along all its passages, so that it is accepted; it has no more cells
/// than the plan's size; its cycles are lists of the plan, and prompt; and its outputs are silent, where its inputs are clean.
pub fn fast_circuits()
    ensures rise { FollowersRise }
    ensures accepted { FastIsAccepted }
    ensures few { FastIsSmall }
    ensures lists { FastMakesLists }
    ensures silent { FastStaysSilent }
    ensures one { FastIsOne }
{}

/// The fast circuit of the plan of `skip` is the netlist without registers in its joint, and not the one with both. Its part has depth 1,
/// and its result 2.
pub fn small_fast()
    ensures fast { SkipIsFast }
    ensures slow { RegistersAreNotFast }
    ensures depths { SkipHasDepths }
    ensures one { OneIsNoDepth }
    ensures none { NoneIsNoDepth }
{}

/// No number goes out of such a netlist without its pulse, where none comes in so: then each output's number is 0 in a
/// cycle without its pulse.
pub fn outputs_are_silent()
    ensures { LaidStaysSilent }
{}

/// The combinational cycles of such a netlist are the rings of handshakes along which what comes in passes on in one
/// cycle.
pub fn rings_are_cycles()
    ensures { RingsAreCycles }
{}
