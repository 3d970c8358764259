use crate::{count_text, show_text};
use std::test::Fail;

#[test]
fn shows_the_pairs_and_their_number(rt: HostRuntime) -> Result<(), Fail> {
    let alloc = rt.alloc();
    let text = b"b=2\na \\u00e9\nb=3";
    assert_eq!(rt;
        show_text(alloc, text)?.as_slice(),
        b"a=\\u00E9\nb=3\n".as_slice()
    );
    assert_eq!(rt; count_text(alloc, text)?.as_slice(), b"2\n".as_slice());
    Ok(())
}

#[test]
fn shows_the_line_of_a_malformed_escape(rt: HostRuntime) -> Result<(), Fail> {
    let alloc = rt.alloc();
    let text = b"a=1\n\nb=\\u00";
    assert_eq!(rt;
        show_text(alloc, text)?.as_slice(),
        b"line 3: BadEscape\n".as_slice()
    );
    assert_eq!(rt;
        count_text(alloc, text)?.as_slice(),
        b"line 3: BadEscape\n".as_slice()
    );
    Ok(())
}
