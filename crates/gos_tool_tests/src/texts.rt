// Texts of files that several tests use.

/// A build of one instance.
pub const ONE: &[u8] =
    b"gosbuild 1\ninst main main.gos main.obj\nroot main\nnet out.net\nverilog out.v\npulses in.pls\ntrace out.trc\n";

/// A build of two instances, of which the second serves the import `e` of the first.
pub const TWO: &[u8] =
    b"gosbuild 1\ninst main main.gos main.obj\ninst k k.gos k.obj\nbind main e k\nroot main\nnet out.net\nverilog out.v\npulses in.pls\ntrace out.trc\n";

/// The object file of `export skip : com`.
pub const SKIP_OBJECT: &[u8] =
    b"gosobj 2\nweight 5\nimports 0\nresult com\nparts 1\nskip\njoints 1\nr.0 p0.0\nend\n";

/// What is printed for words that are no command.
pub const USAGE: &[u8] =
    b"usage: gos check SRC | compile SRC OBJ | link BUILD | sim NET PULSES TRACE | build BUILD | demo N | tidy NET OUT | gates NET OUT | explain BUILD MOVES | verify BUILD MOVES\n";
