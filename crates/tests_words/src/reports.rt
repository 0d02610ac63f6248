// Reports of logs and journals. What is wanted was reckoned by hand, from the definition of a log and the layout of a journal's records.
use cr_report::{
    Named, Reduction, ReportFault, asked_for, picture_text, read_journal, read_reduction,
    report_text,
};
use std::alloc::{AllocError, Global};
use std::process::Abort;

/// Logs: the size at first where it is known, the lines, which end with `/`, and what is reported but for the picture.
const LOGS: &str = "\
30#l 0 0 20 10/v 3 5 10 30/o 0 1 4 50/end fixed 4 71/#f.c: size 30 to 4 (13 %), 3 accepted, 71 turns, the last 21 in vain, ended fixed//pass level  accepted    turns   removed/l        0         1       10        10/v        3         1       20        10/o        0         1       20         6
#l 0 0 20 10/v 3 5 10 30/o 0 1 4 50/end fixed 4 71/#f.c: size unknown to 4, 3 accepted, 71 turns, the last 21 in vain, ended fixed//pass level  accepted    turns   removed/l        0         1       10         -/v        3         1       20        10/o        0         1       20         6
19#l 0 0 20 10/end fixed 20 10/#f.c: size unknown to 20, 1 accepted, 10 turns, the last 0 in vain, ended fixed//pass level  accepted    turns   removed/l        0         1       10         -
100#s 2 1 90 3/c 0 1 89 4/s 2 0 70 9/end fault 70 10/#f.c: size 100 to 70 (70 %), 3 accepted, 10 turns, the last 1 in vain, ended fault//pass level  accepted    turns   removed/s        2         2        8        29/c        0         1        1         1
#end limit 9 5/#f.c: size 9 to 9 (100 %), 0 accepted, 5 turns, the last 5 in vain, ended limit//pass level  accepted    turns   removed
18446744073709551615#f 255 0 1 18446744073709551615/end fixed 1 18446744073709551615/#f.c: size 18446744073709551615 to 1 (0 %), 1 accepted, 18446744073709551615 turns, the last 0 in vain, ended fixed//pass level  accepted    turns   removed/f      255         1 18446744073709551615 18446744073709551614
";

/// Texts that are no logs, and why.
const BAD_LOGS: &str = "\
#line 1 isn't in the form of a log
l 0 0 20 10/x 0 0 10 20/end fixed 10 20/#line 2 isn't in the form of a log
l 0 0 20 10/#line 2 isn't in the form of a log
l 0 0 20 10/end fixed 20 10/end fixed 20 10/#line 3 isn't in the form of a log
l 0 0 20 10/l 0 0 21 12/end fixed 21 12/#line 2 doesn't follow from what stands before it
l 0 0 20 10/l 0 0 19 9/end fixed 19 12/#line 2 doesn't follow from what stands before it
l 0 0 20 10/end fixed 19 12/#line 2 doesn't follow from what stands before it
l 0 0 20 10/end fixed 20 9/#line 2 doesn't follow from what stands before it
";

/// Journals byte by byte, and what is reported but for the picture: passes ff0f, 1000000 steps, no limit, size 30, and then the rows of the
/// first log.
const JOURNALS: &str = "\
01ff0f40420f0000000000ffffffffffffffff1e000000000000000000000000 010000000000000000000014000000000000000a000000000000000000000000 010a0305000000000000000a000000000000001e000000000000000000000000 010b000100000000000000040000000000000032000000000000000000000000 00#f.c: size 30 to 4 (13 %), 3 accepted, 50 turns, so far//pass level  accepted    turns   removed/l        0         1       10        10/v        3         1       20        10/o        0         1       20         6
01ff0f40420f0000000000ffffffffffffffff1e000000000000000000000000 010000000000000000000014000000000000000a000000000000000000000000 010a0305000000000000000a000000000000001e000000000000000000000000#f.c: size 30 to 20 (66 %), 1 accepted, 10 turns, so far//pass level  accepted    turns   removed/l        0         1       10        10
01ff0f40420f0000000000ffffffffffffffff1e000000000000000000000000 010000000000000000000014000000000000000a000000000000000000000000 010a0305000000000000000a000000000000001e#f.c: size 30 to 20 (66 %), 1 accepted, 10 turns, so far//pass level  accepted    turns   removed/l        0         1       10        10
01ff0f40420f0000000000ffffffffffffffff1e000000000000000000000000 010000000000000000000014000000000000000a000000000000000000000000 410a0305000000000000000a000000000000001e000000000000000000000000 01#f.c: size 30 to 20 (66 %), 1 accepted, 10 turns, so far//pass level  accepted    turns   removed/l        0         1       10        10
01ff0f40420f0000000000ffffffffffffffff1e000000000000000000000000 00#f.c: size 30 to 30 (100 %), 0 accepted, 0 turns, so far//pass level  accepted    turns   removed
01ff0f40420f0000000000ffffffffffffffff1e000000000000000000000000#it is no journal of creduce, or nothing is kept in it yet
00#it is no journal of creduce, or nothing is kept in it yet
#it is no journal of creduce, or nothing is kept in it yet
01ff0f40420f0000000000ffffffffffffffff1e000000000000000000000001 00#record 0 isn't in the form of a journal
01ff0f40420f0000000000ffffffffffffffff1e000000000000000000000000 010c00000000000000000014000000000000000a000000000000000000000000 00#record 1 isn't in the form of a journal
01ff0f40420f0000000000ffffffffffffffff1e000000000000000000000000 010000000000000000000014000000000000000a000000000000000000000000 010a0305000000000000000a000000000000001e000000000000000000000001 00#record 2 isn't in the form of a journal
01ff0f40420f0000000000ffffffffffffffff1e000000000000000000000000 010000000000000000000014000000000000000a000000000000000000000000 010000000000000000000015000000000000000b000000000000000000000000 00#record 2 doesn't follow from what stands before it
01ff0f40420f0000000000ffffffffffffffff1e000000000000000000000000 01000000000000000000001f000000000000000b000000000000000000000000 00#record 1 doesn't follow from what stands before it
";

/// The report of the first log beside another one.
const BESIDE: &str = "\
f.c: size 30 to 4 (13 %), 3 accepted, 71 turns, the last 21 in vain, ended fixed
g<&.c: size 30 to 25 (83 %), 1 accepted, 8 turns, the last 4 in vain, ended limit

pass level  accepted    turns   removed   | accepted    turns   removed
l        0         1       10        10   |        1        4         5
v        3         1       20        10   |        0        0         -
o        0         1       20         6   |        0        0         -

      30 |**********
         |
         |    ooooo
         |
         |
         |          ********************
         |
         |
         |
         |
         |                              ********************
         |
         |
         |                                                  **********************
         |
       0 |
    size +------------------------------------------------------------------------
          0                                                                     71 turns
          * f.c, o g<&.c
";

/// What its picture has as SVG.
const DRAWN: &str = "\
viewBox=\"0 0 800 440\"
<text x=\"52\" y=\"26\" text-anchor=\"end\">30</text>
<text x=\"760\" y=\"400\" text-anchor=\"end\">71 turns</text>
points=\"60.0,20.0 158.6,20.0 158.6,140.0 355.8,140.0 355.8,260.0 553.0,260.0 553.0,332.0 760.0,332.0\"/>
points=\"60.0,20.0 99.4,20.0 99.4,80.0 138.9,80.0\"/>
>g&lt;&amp;.c</text>
</svg>
";

/// Words behind `--report`, and what they ask for: the log, another one, and the picture.
const WORDS: &str = "\
f.c.log#f.c.log,-,-
f.c.log --against g.log#f.c.log,g.log,-
--svg=p.svg f.c.log --against=g.log#f.c.log,g.log,p.svg
--svg p.svg -- -f.log#-f.log,-,p.svg
#
a b#
f.c.log --svg#
f.c.log --against=#
f.c.log --svg=p --svg=q#
f.c.log --workers 4#
-x#
--against a#
";

fn expect(rt: &impl Abort, found: &str, wanted: &str, row: &str) {
    assert!(rt; found == wanted, "{row}: {found}");
}

// A text whose lines end with `/` in a row.
fn lines_of(alloc: Global, cell: &str) -> Result<String, AllocError> {
    let mut text = String::new(alloc);
    for c in cell.chars() {
        text.push(if c == '/' { '\n' } else { c })?;
    }
    Ok(text)
}

// The bytes of pairs of hexadecimal digits.
fn bytes_of(alloc: Global, cell: &str) -> Result<Vec<u8>, AllocError> {
    let mut bytes = Vec::new(alloc);
    let mut high = None;
    for c in cell.chars() {
        let Some(digit) = c.to_digit(16) else {
            continue;
        };
        match high {
            None => high = Some(digit),
            Some(first) => {
                bytes.push(((16 * (first & 15)) | (digit & 15)) as u8)?;
                high = None;
            }
        }
    }
    Ok(bytes)
}

// What is said of it, up to the picture, or why there is nothing to say.
fn said(alloc: Global, read: Result<Reduction, ReportFault>) -> Result<String, AllocError> {
    match read {
        Err(fault) => format!(in alloc; "{fault}"),
        Ok(of) => {
            let text = report_text(
                alloc,
                Named {
                    name: "f.c",
                    of: &of,
                },
                None,
            )?;
            let mut parts = text.as_str().split("\n\n");
            let summary = parts.next().unwrap_or("");
            let table = parts.next().unwrap_or("");
            format!(in alloc; "{summary}\n\n{table}")
        }
    }
}

fn expect_log(rt: &impl Abort, alloc: Global, row: &str) -> Result<(), AllocError> {
    let mut cells = row.splitn(3, '#');
    let first = cells.next().unwrap_or("").parse::<u64>().ok();
    let log = lines_of(alloc, cells.next().unwrap_or(""))?;
    let wanted = lines_of(alloc, cells.next().unwrap_or(""))?;
    let found = said(alloc, read_reduction(alloc, log.as_str().as_bytes(), first))?;
    expect(rt, found.as_str(), wanted.as_str(), row);
    Ok(())
}

fn expect_journal(rt: &impl Abort, alloc: Global, row: &str) -> Result<(), AllocError> {
    let (journal, wanted) = row.split_once('#').unwrap_or(("", ""));
    let journal = bytes_of(alloc, journal)?;
    let wanted = lines_of(alloc, wanted)?;
    let found = said(alloc, read_journal(alloc, journal.as_slice()))?;
    expect(rt, found.as_str(), wanted.as_str(), row);
    Ok(())
}

#[test]
fn a_log_is_reported(rt: HostRuntime) -> Result<(), AllocError> {
    for row in LOGS.lines() {
        expect_log(&rt, rt.alloc(), row)?;
    }
    for row in BAD_LOGS.lines() {
        let row = format!(in rt.alloc(); "#{row}")?;
        expect_log(&rt, rt.alloc(), row.as_str())?;
    }
    Ok(())
}

#[test]
fn a_journal_is_reported(rt: HostRuntime) -> Result<(), AllocError> {
    for row in JOURNALS.lines() {
        expect_journal(&rt, rt.alloc(), row)?;
    }
    Ok(())
}

fn log_in(rt: &impl Abort, alloc: Global, text: &str) -> Result<Reduction, AllocError> {
    match read_reduction(alloc, text.as_bytes(), Some(30)) {
        Ok(reduction) => Ok(reduction),
        Err(fault) => panic!(rt; "{fault}"),
    }
}

#[test]
fn two_logs_stand_side_by_side(rt: HostRuntime) -> Result<(), AllocError> {
    let alloc = rt.alloc();
    let of = log_in(
        &rt,
        alloc,
        "l 0 0 20 10\nv 3 5 10 30\no 0 1 4 50\nend fixed 4 71\n",
    )?;
    let beside = log_in(&rt, alloc, "l 0 0 25 4\nend limit 25 8\n")?;
    let one = Named {
        name: "f.c",
        of: &of,
    };
    let other = Some(Named {
        name: "g<&.c",
        of: &beside,
    });
    expect(
        &rt,
        report_text(alloc, one, other)?.as_str(),
        BESIDE,
        "beside",
    );
    let drawn = picture_text(alloc, one, other)?;
    for part in DRAWN.lines() {
        assert!(&rt; drawn.as_str().contains(part), "{part}: {drawn}");
    }
    Ok(())
}

fn expect_words(rt: &impl Abort, alloc: Global, row: &str) -> Result<(), AllocError> {
    let (words, wanted) = row.split_once('#').unwrap_or(("", ""));
    let mut given = Vec::new(alloc);
    for word in words.split(' ').filter(|word| !word.is_empty()) {
        given.push(String::from_str(alloc, word)?)?;
    }
    let found = match asked_for(given.as_slice()) {
        None => String::new(alloc),
        Some(asked) => {
            let against = asked.against.unwrap_or("-");
            let picture = asked.picture.unwrap_or("-");
            format!(in alloc; "{},{against},{picture}", asked.name)?
        }
    };
    expect(rt, found.as_str(), wanted, row);
    Ok(())
}

#[test]
fn the_words_of_a_report_are_read(rt: HostRuntime) -> Result<(), AllocError> {
    for row in WORDS.lines() {
        expect_words(&rt, rt.alloc(), row)?;
    }
    Ok(())
}
