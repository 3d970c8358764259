// Texts from the documentation of java.util.Properties, from worked examples, and what the JDK made of texts.

use props_text::{Pairs, PropsFault, read, write, write_text, written_comes_back};
use std::alloc::Global;
use std::test::Fail;

fn reads_as(alloc: Global, text: &[u8], want: &[u8]) -> bool {
    match read(alloc, text) {
        Ok(pairs) => match write(alloc, &pairs) {
            Ok(written) => written.as_slice() == want,
            Err(_) => false,
        },
        Err(_) => false,
    }
}

fn is_malformed_in(alloc: Global, text: &[u8], number: u64) -> bool {
    match read(alloc, text) {
        Err(PropsFault::BadEscape { line }) => line == number,
        _ => false,
    }
}

/// Fails with the first of these texts that isn't read as its pairs.
fn all_read(alloc: Global, rows: &[(&[u8], &[u8])]) -> Result<(), Fail> {
    for (text, want) in rows {
        if !reads_as(alloc, text, want) {
            return Err(Fail::new(format_args!("{text:?}")));
        }
    }
    Ok(())
}

/// Fails with the first of these texts of which no malformed escape is told, or another line.
fn all_malformed(alloc: Global, rows: &[(&[u8], u64)]) -> Result<(), Fail> {
    for (text, number) in rows {
        if !is_malformed_in(alloc, text, *number) {
            return Err(Fail::new(format_args!("{text:?}")));
        }
    }
    Ok(())
}

/// Texts, and the pairs that java.util.Properties of OpenJDK 17 reads in them, as `write` writes pairs. They were had by
/// tools/compare_properties.py.
const READ_BY_JAVA: &[(&[u8], &[u8])] = &[
    (b"a=1\rb=2\r\nc=3\nd=4", b"a=1\nb=2\nc=3\nd=4\n"),
    (b" \t\x0ckey \t\x0c value \t", b"key=value\\u0020\\u0009\n"),
    (
        b"a = = b\nc : = d\ne=:f\ng==h",
        b"a=\\=\\u0020b\nc=\\=\\u0020d\ne=\\:f\ng=\\=h\n",
    ),
    (b"=v\n:w", b"=w\n"),
    (b"key\nother:\n", b"key=\nother=\n"),
    (
        b"a\\=b\\:c\\ d\\\te=f\\=g",
        b"a\\=b\\:c\\u0020d\\u0009e=f\\=g\n",
    ),
    (
        b"\\#a=#b\n\\!c=!d\n # e=f\n\t!g=h",
        b"\\!c=\\!d\n\\#a=\\#b\n",
    ),
    (
        b"# never goes on \\\na=1\n! nor this \\\\\\\nb=2",
        b"a=1\nb=2\n",
    ),
    (b"a=b\\\\\nc=d\\\\\\\ne\\\\", b"a=b\\\\\nc=d\\\\e\\\\\n"),
    (b"a=b\\\n \t\x0c c\\\r\n\\ d\\\re", b"a=bc\\u0020de\n"),
    (b"a=b\\\n#c\nd=e\\\n!f", b"a=b\\#c\nd=e\\!f\n"),
    (b"a\\\n=b\nc\\\n\n=d\ne \\\n: f", b"=d\na=b\nc=\ne=f\n"),
    (b"a=b\\\n\nc=d\\\n \t\ne=f\\\n", b"a=b\nc=d\ne=f\n"),
    (
        b"a=\\t\\n\\r\\f\\b\\a\\0\\\"\\'\\z\\T\\U0041",
        b"a=\\u0009\\u000A\\u000D\\u000Cba0\"'zTU0041\n",
    ),
    (
        b"\\u0041\\u00e9\\u00E9=\\uD83D\\uDe00\\u0000\\uFFFF",
        b"A\\u00E9\\u00E9=\\uD83D\\uDE00\\u0000\\uFFFF\n",
    ),
    (
        b"\\u003d\\u003A\\u0020\\u005c=\\u000a\\u0023",
        b"\\=\\:\\u0020\\\\=\\u000A\\#\n",
    ),
    (b"a=\\u00\\\n  41\\\\u0041\\u00411", b"a=A\\\\u0041A1\n"),
    (b"\\\\u=\\\\\\u0041", b"\\\\u=\\\\A\n"),
    (b"a=1\na=2\n\\u0061=3\n\\a 4", b"a=4\n"),
    (
        b"\x80\xff=\x85\xa0\x7f\x01\x0b\x1c\n\x0bkey=\x0bvalue",
        b"\\u000Bkey=\\u000Bvalue\n\\u0080\\u00FF=\\u0085\\u00A0\\u007F\\u0001\\u000B\\u001C\n",
    ),
    (b"\x00a\x00=\x00", b"\\u0000a\\u0000=\\u0000\n"),
    (b"a=b\\", b"a=b\n"),
    (b"a=b\\\\", b"a=b\\\\\n"),
    (b"\\\\\\\\\\\\=\\\\\\", b"\\\\\\\\\\\\=\\\\\n"),
    (b"\\ a\\  b", b"\\u0020a\\u0020=b\n"),
    (b"a=1\n\n \t\x0c\n\r\r\n\nb=2\n", b"a=1\nb=2\n"),
];

/// Texts that java.util.Properties of OpenJDK 17 refuses, had likewise, and the line of each one's first malformed escape.
const REFUSED_BY_JAVA: &[(&[u8], u64)] = &[
    (b"a=1\nb=\\u", 2),
    (b"a=\\u00g0", 1),
    (b"\\u004=1", 1),
    (b"a=\\u004\nb=1", 1),
    (b"a=\\u00\\\n  4", 1),
    (b"a=\\u0041\\uu0041", 1),
    (b"a=\\u+041", 1),
    (b"a=1\r\n\r\nb \\\n\\u12\xe94=3", 4),
];

/// Texts from the documentation, and the pairs in them.
const READ: &[(&[u8], &[u8])] = &[
    (
        b"Truth = Beauty\n Truth:Beauty2\nTruth\t\t:Beauty3",
        b"Truth=Beauty3\n",
    ),
    (
        b"fruits  apple, banana, \\\r\n    pear\r\ncheeses",
        b"cheeses=\nfruits=apple,\\u0020banana,\\u0020pear\n",
    ),
    (
        b"\\:\\== \\u0041\\u00e9\\t\\z\\\\\\\n  b",
        b"\\:\\==A\\u00E9\\u0009z\\\\b\n",
    ),
    (b"\\\n#a=b\n\\\n\n#c=d\n! e\\\nf=g", b"\\#a=b\nf=g\n"),
    (b"\\", b""),
    (b"a b=\xe9", b"a=b\\=\\u00E9\n"),
];

/// Texts with a malformed escape, and the line of the first one.
const MALFORMED: &[(&[u8], u64)] = &[
    (b"# \\uZ\na=1\nb=\\\n  \\u00G1\nc=\\u", 4),
    (b"a=\\u00\\\n4", 1),
    (b"\r\n\r\\u00=4", 3),
];

#[test]
fn reads_the_texts_of_the_jdk(rt: HostRuntime) -> Result<(), Fail> {
    all_read(rt.alloc(), READ)
}

#[test]
fn tells_the_line_of_the_first_malformed_escape(rt: HostRuntime) -> Result<(), Fail> {
    all_malformed(rt.alloc(), MALFORMED)
}

/// Whether the pairs are two, of which one has the key b and none the key c.
fn are_two(pairs: &Pairs) -> bool {
    let is_found = pairs.get(&[98]).is_some() && pairs.get(&[99]).is_none();
    is_found && pairs.len() == 2 && pairs.nth(1).is_some() && pairs.nth(2).is_none()
}

#[test]
fn shows_the_pairs_by_rising_keys(rt: HostRuntime) {
    written_comes_back();
    match read(rt.alloc(), b"b=2\na=1") {
        Ok(pairs) => assert!(rt; are_two(&pairs)),
        Err(_) => assert!(rt; false),
    }
    match write_text(rt.alloc(), &[35, 233]) {
        Ok(text) => assert!(rt; text.as_slice() == b"\\#\\u00E9".as_slice()),
        Err(_) => assert!(rt; false),
    }
}

#[test]
fn reads_what_java_reads(rt: HostRuntime) -> Result<(), Fail> {
    all_read(rt.alloc(), READ_BY_JAVA)
}

#[test]
fn refuses_what_java_refuses(rt: HostRuntime) -> Result<(), Fail> {
    all_malformed(rt.alloc(), REFUSED_BY_JAVA)
}
