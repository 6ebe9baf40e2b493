// Sources and the object texts of their plans. The texts are written by hand, from the kinds and the wiring.

use gos_check::{check, parsed_is_countable};
use gos_compile::{compile, small_plans};
use gos_lex::scan;
use gos_plan::print_object;
use gos_syntax::parse;
use std::alloc::Global;
use std::test::Fail;

// The object text of a source's plan.
fn object_of(alloc: Global, text: &[u8]) -> Result<Vec<u8>, Fail> {
    let tokens = scan(alloc, text)?;
    let program = parse(alloc, text, tokens.as_slice())?;
    parsed_is_countable(text, tokens.as_slice(), &program);
    let linear = check(alloc, &program)?;
    let plan = compile(alloc, &linear)?;
    Ok(print_object(alloc, &plan)?)
}

#[test]
fn small_sources_have_these_plans(rt: HostRuntime) -> Result<(), Fail> {
    small_plans();
    let rows: [(&[u8], &[u8]); 7] = [
        (
            b"export skip : com",
            b"gosobj 2\nweight 5\nimports 0\nresult com\nparts 1\nskip\njoints 1\nr.0 p0.0\nend\n",
        ),
        (
            b"export skip ; skip : com",
            b"gosobj 2\nweight 15\nimports 0\nresult com\nparts 3\nseq\nskip\nskip\njoints 3\nr.0 p0.2\np0.0 p1.0\np0.1 p2.0\nend\n",
        ),
        (
            b"export fun a : com . a : com -> com",
            b"gosobj 2\nweight 11\nimports 0\nresult fun com com\nparts 0\njoints 1\nr.1 r.0\nend\n",
        ),
        (
            b"import c : com import d : com export c ; d : com",
            b"gosobj 2\nweight 17\nimports 2\nimport c com\nimport d com\nresult com\nparts 1\nseq\njoints 3\nr.0 p0.2\np0.0 i0.0\np0.1 i1.0\nend\n",
        ),
        // A name that is used twice has a Share, whose callers are the two uses.
        (
            b"import c : com export c ; c : com",
            b"gosobj 2\nweight 16\nimports 1\nimport c com\nresult com\nparts 2\nshare com\nseq\njoints 4\np0.0 i0.0\nr.0 p1.2\np1.0 p0.1\np1.1 p0.2\nend\n",
        ),
        // The argument is run where the function's body asks for it.
        (
            b"export (fun x : com . x) skip : com",
            b"gosobj 2\nweight 21\nimports 0\nresult com\nparts 1\nskip\njoints 1\nr.0 p0.0\nend\n",
        ),
        // The array asks for the index, and its write is joined to nothing.
        (
            b"export new a[2] : 8 in !(a 0:1) : exp 8",
            b"gosobj 2\nweight 30\nimports 0\nresult exp 8\nparts 3\narray 8 2 exp 8\nderef 8\nlit 1 0\njoints 4\nr.0 p0.4\np0.1 p2.0\np0.0 p1.1\np1.0 p0.2\nend\n",
        ),
    ];
    for (text, object) in rows.iter() {
        assert!(rt; object_of(rt.alloc(), text)?.as_slice() == *object);
    }
    Ok(())
}

// Each of them has a plan.
#[test]
fn worked_sources_have_plans(rt: HostRuntime) -> Result<(), Fail> {
    let rows: [&[u8]; 10] = [
        b"import c : com import d : com export c ; d ; c : com",
        b"import f : com -> com import v : var 8 export f (v := 1:8) ; f (v := 2:8) : com",
        b"export fun a : com . a ; a : com -> com",
        b"import e : exp 8 export (fun x : exp 8 . x + x) e : exp 8",
        b"import c : com export new x : 1 in while !x = 0:1 do (x := 1:1 ; c) : com",
        b"import rep : exp 8 -> com -> com import tick : com import phase_a : com import phase_b : com import size : exp 8 export rep size (phase_a ; phase_b ; tick) : com",
        b"export fun n : exp 8 . fun b : com . new i : 8 in (i := n ; while not (!i = 0:8) do (b ; i := !i - 1:8)) : exp 8 -> com -> com",
        b"import v : var 8 export v := !v + 1:8 : com",
        b"export new a[4] : 8 in (fun b : exp 2 -> var 8 . b 1:2 := 7:8 ; b 0:2 := !(b 1:2)) a : com",
        b"import p : com*var 8 export fst p ; if !snd p < 3:8 then fst p else snd p := 0:8 : com",
    ];
    for text in rows.iter() {
        assert!(rt; object_of(rt.alloc(), text)?.len() > 0);
    }
    Ok(())
}
