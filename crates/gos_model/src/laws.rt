// What the definitions say, in small. Each theorem is the contract of a function that does nothing.
ghost use Rattle.gos_model.specs.Laws.{
  NodeHasType,
  OneType,
  StepsHavePaths,
  LabelsHavePaths,
  UnfoldingsHavePaths,
  WritesStore,
  ReadsBehindWrite,
  AbsentIsNotWritten,
  AbsentIsNotRead,
};
ghost use Rattle.gos_model.specs.ArrayPorts.{GroundPortsKeep, GroundLabels, AccessesRun, IndexWaits, IndexIsNotFirst, ArrayAnswers};
ghost use Rattle.gos_model.specs.SmallStores.{
  ReadsWhatIsWritten,
  OtherIndexStays,
  OutsideChangesNothing,
  OtherLocationStays,
  LengthsStay,
  ThreeNumbers,
  VariableHasOne,
  FirstCounts,
};
ghost use Rattle.gos_model.specs.SmallArrays.{
  LengthIsPower,
  ArrayIsZeros,
  WriteIsAtIndex,
  OutsideHasNoStep,
  ReadWaits,
  WriteWaits,
  FourAnswers,
  FourHasType,
  FourWeighs,
  ThreeHasNoType,
  NestedHasNoType,
};
ghost use Rattle.gos_model.specs.SmallModules.{Weights, Types, Shared, Links, LinkWeighs};
ghost use Rattle.gos_model.specs.SmallPrograms.{
  SeqRuns,
  SeqWaits,
  SeqWeight,
  WaitingIsStalled,
  EmittingIsNotStalled,
  ParEitherWay,
  LoopRuns,
  NewIsZero,
  DoubleAsksTwice,
};

/// `c ; d` runs c and then d, and never d first. It is stalled while it waits, and not where it can run c.
pub fn sequences()
    ensures runs { SeqRuns }
    ensures waits { SeqWaits }
    ensures weight { SeqWeight }
    ensures waiting { WaitingIsStalled }
    ensures emitting { EmittingIsNotStalled }
{}

/// `c || d` begins with either, a loop runs c once, a new variable is 0, and an argument is asked at each use.
pub fn small_traces()
    ensures either { ParEitherWay }
    ensures once { LoopRuns }
    ensures zero { NewIsZero }
    ensures twice { DoubleAsksTwice }
{}

/// Modules have their weights and types, a name in both parts is refused, and a link puts the giver in and weighs what
/// its instances weigh together.
pub fn small_modules()
    ensures weights { Weights }
    ensures types { Types }
    ensures shared { Shared }
    ensures links { Links }
    ensures weighs { LinkWeighs }
{}

/// A typed term has one type, and weighs by it.
pub fn types_of_terms()
    ensures node { NodeHasType }
    ensures one { OneType }
{}

/// A step at a reached place is a step at a path, both ways, and so are a label and an unfolding.
pub fn reached_places()
    ensures step { StepsHavePaths }
    ensures label { LabelsHavePaths }
    ensures unfolding { UnfoldingsHavePaths }
{}

/// A write leaves its number in the store, at a location that the store has, and a read behind it gives that number. A number that
/// isn't there is neither written nor read.
pub fn writes()
    ensures left { WritesStore }
    ensures read { ReadsBehindWrite }
    ensures absent { AbsentIsNotWritten }
    ensures unread { AbsentIsNotRead }
{}

/// In a store a number that was put is read behind it; another index and another location stay as they were, and so does all
/// where there is no number. A location keeps how many numbers it has. Of two entries of one location the first counts.
pub fn stores()
    ensures written { ReadsWhatIsWritten }
    ensures index { OtherIndexStays }
    ensures outside { OutsideChangesNothing }
    ensures location { OtherLocationStays }
    ensures lengths { LengthsStay }
    ensures three { ThreeNumbers }
    ensures one { VariableHasOne }
    ensures first { FirstCounts }
{}

/// At ports that are ground, inputs that keep the protocol of ports keep the protocol, and the other way round; and each label there is
/// an event of its port's type, so none of an access of an array.
pub fn ground_ports()
    ensures keep { GroundPortsKeep }
    ensures labels { GroundLabels }
{}

/// An access of an array puts its request, then the index when the array asks for it, and waits for the answer. The array
/// answers what was asked for, and not while it waits for the index.
pub fn accesses()
    ensures run { AccessesRun }
    ensures index { IndexWaits }
    ensures order { IndexIsNotFirst }
    ensures answers { ArrayAnswers }
{}

/// A new array is zeros, as many as it is long. A write at an index leaves its number there and all others as they were, and an index
/// outside has no step. The index is evaluated before the read, and after the right side and before the write.
pub fn arrays()
    ensures zeros { ArrayIsZeros }
    ensures write { WriteIsAtIndex }
    ensures outside { OutsideHasNoStep }
    ensures reads { ReadWaits }
    ensures writes { WriteWaits }
{}

/// The length of an array is 2 to the bits of its index, 1 to 4. A block with four numbers answers what it wrote at one and zero at
/// another, and weighs its numbers too. Three numbers have no type, nor has an access whose index is of the same array.
pub fn small_arrays()
    ensures length { LengthIsPower }
    ensures answers { FourAnswers }
    ensures ty { FourHasType }
    ensures weight { FourWeighs }
    ensures three { ThreeHasNoType }
    ensures nested { NestedHasNoType }
{}
