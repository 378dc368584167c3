// Faults are compared as number, line and field, 0 where they name none; a good file has no fault.
use crate::sample::{aircraft_with, fault, fault_of_two, fault_with, file, put};
use aircraft::record::Engine;
use opf::read::read;
use std::alloc::Global;
use std::process::Abort;
use std::test::Fail;

// The sample with one line replaced: the line's place, the line, and the fault that the file then has.
fn faults(
    rt: &impl Abort,
    heap: Global,
    cases: &[(usize, &[u8], Option<(u8, u32, u32)>)],
) -> Result<(), Fail> {
    for (at, line, fault) in cases {
        assert_eq!(rt; fault_with(heap, *at, *line)?, *fault);
    }
    Ok(())
}

#[test]
fn faults_of_text_and_layout(rt: HostRuntime) -> Result<(), Fail> {
    let heap = rt.alloc();
    faults(
        &rt,
        heap,
        &[
            (1, b"CC\x7f", Some((2, 1, 0))),
            (5, b"CD\t5 .10000E+03", Some((2, 5, 0))),
            (11, b"CX", Some((3, 11, 0))),
            (11, b"", Some((3, 11, 0))),
            (24, b"CD", Some((4, 24, 0))),
            (23, b"FI", Some((4, 23, 0))),
            (20, b"CD .70000E+00", Some((5, 20, 0))),
            (
                6,
                b"CD 1 CR .14000E+03 .20000E-01 .40000E-01",
                Some((5, 6, 0)),
            ),
        ],
    )
}

#[test]
fn faults_of_words_and_numbers(rt: HostRuntime) -> Result<(), Fail> {
    let heap = rt.alloc();
    faults(
        &rt,
        heap,
        &[
            (2, b"CD SMPL__ 2 engines jet M", Some((6, 2, 4))),
            (
                6,
                b"CD 1 XX Clean .14000E+03 .20000E-01 .40000E-01 .00000E+00",
                Some((6, 6, 2)),
            ),
            (
                7,
                b"CD 2 CR S15F00 .11700E+03 .33057E-01 .45362E-01 .00000E+00",
                Some((6, 7, 2)),
            ),
            (5, b"CD 5 .1000E+03", Some((7, 5, 2))),
            (5, b"CD 5 .10000e+03", Some((7, 5, 2))),
            (5, b"CD 5 +.10000E+03", Some((7, 5, 2))),
            (5, b"CD 5 .49990E+01", Some((8, 5, 2))),
            (5, b"CD 5 .50001E+01", Some((8, 5, 2))),
            (3, b"CD .60000E+02 .70000E+02 .80000E+02", Some((10, 3, 0))),
        ],
    )
}

#[test]
fn faults_at_the_end(rt: HostRuntime) -> Result<(), Fail> {
    let heap = rt.alloc();
    assert_eq!(rt; fault(b""), Some((9, 0, 0)));
    faults(
        &rt,
        heap,
        &[
            (24, b"CC", Some((9, 0, 0))),
            (24, b"FI\n\nCC", Some((9, 24, 0))),
            (24, b"FI\n\x7f", Some((9, 24, 0))),
            (24, b"FI\n\r\n\r", None),
        ],
    )
}

#[test]
fn first_fault_of_two_lines(rt: HostRuntime) -> Result<(), Fail> {
    let heap = rt.alloc();
    let late = put(7, b"CC\x7f");
    assert_eq!(rt;
        fault_of_two(heap, put(3, b"CD .30000E+02 .40000E+02 .80000E+02"), late)?,
        Some((10, 3, 0))
    );
    assert_eq!(rt;
        fault_of_two(heap, put(5, b"CD 5 .10000E+09"), late)?,
        Some((8, 5, 2))
    );
    assert_eq!(rt; fault_of_two(heap, put(8, b"CX"), late)?, Some((2, 7, 0)));
    assert_eq!(rt; fault_of_two(heap, put(24, b"CC"), late)?, Some((2, 7, 0)));
    assert_eq!(rt;
        fault_of_two(heap, put(23, b"FI"), put(24, b"x"))?,
        Some((4, 23, 0))
    );
    Ok(())
}

#[test]
fn first_fault_of_one_line(rt: HostRuntime) -> Result<(), Fail> {
    let heap = rt.alloc();
    faults(
        &rt,
        heap,
        &[
            (11, b"CX\x7f", Some((2, 11, 0))),
            (24, b"CD\x7f", Some((2, 24, 0))),
            (3, b"CD .6 .40000E+09", Some((5, 3, 0))),
            (3, b"CD .10000E+00 .4 .80000E+02", Some((8, 3, 1))),
            (
                6,
                b"CD 1 XX .14000E+03 .20000E-01 .40000E-01",
                Some((5, 6, 0)),
            ),
            (7, b"CD 2 CR .1 .2 .3 .4", Some((6, 7, 2))),
            (7, b"CD 2 IC .11700E+03 .2 .48000E+00 .4", Some((7, 7, 4))),
        ],
    )
}

#[test]
fn line_ends(rt: HostRuntime) -> Result<(), Fail> {
    let heap = rt.alloc();
    let end = put(24, b"FI");
    let mut text = file(heap, end, end, b"\r\n")?;
    assert_eq!(rt; fault(text.as_slice()), None);
    let _ = text.pop();
    assert_eq!(rt; fault(text.as_slice()), Some((2, 24, 0)));
    let _ = text.pop();
    assert_eq!(rt; fault(text.as_slice()), None);
    faults(
        &rt,
        heap,
        &[(11, b"CD\r", None), (11, b"CD\r\r", Some((2, 11, 0)))],
    )
}

#[test]
fn longest_line(rt: HostRuntime) -> Result<(), Fail> {
    let heap = rt.alloc();
    let mut comment = Vec::new(heap);
    comment.resize(160, b'C')?;
    assert_eq!(rt; fault_with(heap, 1, comment.as_slice())?, None);
    comment.resize(161, b'C')?;
    assert_eq!(rt; fault_with(heap, 1, comment.as_slice())?, Some((2, 1, 0)));
    Ok(())
}

#[test]
fn largest_file(rt: HostRuntime) -> Result<(), Fail> {
    let heap = rt.alloc();
    let mut text = file(heap, put(1, b"CC"), put(24, b"FI"), b"\n")?;
    text.resize(32768, b'\n')?;
    assert_eq!(rt; fault(text.as_slice()), None);
    text.resize(32769, b'\n')?;
    assert_eq!(rt; fault(text.as_slice()), Some((1, 0, 0)));
    let mut broken = file(heap, put(1, b"CX"), put(24, b"FI"), b"\n")?;
    broken.resize(32769, b'x')?;
    assert_eq!(rt; fault(broken.as_slice()), Some((1, 0, 0)));
    Ok(())
}

#[test]
fn zeros_and_exponents(rt: HostRuntime) -> Result<(), Fail> {
    let heap = rt.alloc();
    let a = aircraft_with(
        heap,
        17,
        b"CD .15000E+06 .50000E+05 -.00000E-99 -.00000E+99 .00000E+99",
    )?;
    assert_eq!(rt; a.temperature.ctc4, 0);
    assert_eq!(rt; a.temperature.ctc5, 0);
    let b = aircraft_with(
        heap,
        17,
        b"CD .15000E+06 .00050E+08 .12345E-11 -.99000E+02 .50000E-02",
    )?;
    assert_eq!(rt; b.temperature.ctc4, -990000);
    faults(
        &rt,
        heap,
        &[
            (
                17,
                b"CD .15000E+06 .50000E+05 .12345E-12 .0 .0",
                Some((8, 17, 3)),
            ),
            (17, b"CD .99999E+99 .50000E+05 .0 .0 .0", Some((8, 17, 1))),
            (
                17,
                b"CD .15000E+06 .50000E+05 .00001E-99 .0 .0",
                Some((8, 17, 3)),
            ),
            (
                17,
                b"CD .15000E+06 .50000E+05 .00000E+100 .0 .0",
                Some((7, 17, 3)),
            ),
        ],
    )
}

#[test]
fn names_of_flaps(rt: HostRuntime) -> Result<(), Fail> {
    let heap = rt.alloc();
    let a = aircraft_with(
        heap,
        9,
        b"CD 4 AP .11600E+03 .38031E-01 .44932E-01 .00000E+00",
    )?;
    assert_eq!(rt; a.rows.approach.stall, 116000);
    let b = aircraft_with(
        heap,
        9,
        b"CD 4 AP two words .11700E+03 .38031E-01 .44932E-01 .00000E+00",
    )?;
    assert_eq!(rt; b.rows.approach.stall, 117000);
    let c = aircraft_with(
        heap,
        9,
        b"CD 4 AP a b c .11800E+03 .38031E-01 .44932E-01 any",
    )?;
    assert_eq!(rt; c.rows.approach.stall, 118000);
    assert_eq!(rt; c.rows.landing.stall, 97000);
    assert_eq!(rt;
        fault_with(
            heap,
            9,
            b"CD 4 AP a b c .11800E+03 .38031E-01 .47001E+00 any",
        )?,
        Some((8, 9, 8))
    );
    Ok(())
}

#[test]
fn after_the_slash(rt: HostRuntime) -> Result<(), Fail> {
    let heap = rt.alloc();
    faults(
        &rt,
        heap,
        &[
            (5, b"CD 5 .10000E+03/x .y / z", None),
            (5, b"CD5 .10000E+03", None),
            (5, b"CD 5 .10000/E+03", Some((7, 5, 2))),
            (5, b"CD 5 / .10000E+03", Some((5, 5, 0))),
            (5, b"CD 5 .10000E+03 / \x1f", Some((2, 5, 0))),
        ],
    )
}

#[test]
fn rows_by_their_words(rt: HostRuntime) -> Result<(), Fail> {
    let landing = put(
        6,
        b"CD 1 LD S30F40 .97000E+02 .78935E-01 .44822E-01 .00000E+00",
    );
    let clean = put(
        10,
        b"CD 5 CR Clean .14000E+03 .20000E-01 .40000E-01 .00000E+00",
    );
    let text = file(rt.alloc(), landing, clean, b"\n")?;
    let a = read(text.as_slice())?;
    assert_eq!(rt; a.rows.cruise.stall, 140000);
    assert_eq!(rt; a.rows.cruise.cd0, 2000000);
    assert_eq!(rt; a.rows.cruise.cd2, 4000000);
    assert_eq!(rt; a.rows.landing.stall, 97000);
    assert_eq!(rt; a.rows.initial.cd0, 3305700);
    Ok(())
}

#[test]
fn thrust_by_engine(rt: HostRuntime) -> Result<(), Fail> {
    let heap = rt.alloc();
    let word = put(2, b"CD SMPL__ 2 engines Turboprop M");
    let thrust = put(
        17,
        b"CD .00000E+00 .10000E+05 -.10000E+07 .10000E+02 .50000E-02",
    );
    assert_eq!(rt; fault_with(heap, 17, thrust.line)?, Some((8, 17, 1)));
    let text = file(heap, word, thrust, b"\n")?;
    match read(text.as_slice())?.engine {
        Engine::Jet(_) => Err(Fail::new("a jet")),
        Engine::Turboprop(c) => {
            assert_eq!(rt; c.ctc3, -1000000000);
            Ok(())
        },
    }
}
