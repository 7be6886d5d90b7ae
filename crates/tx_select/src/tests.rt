use crate::{
    Part, SelectFault, SelectKind, Selector, TokenFault, read_selector, selector_at, specificity,
};
use std::alloc::{AllocError, Global};
use std::test::Fail;
use tx_expect::{each_line, expect};
use tx_lex::scan;

fn push_part(spelled: &mut String, part: &Part) -> Result<(), AllocError> {
    match part {
        Part::Id(name) => {
            spelled.push_str("#")?;
            spelled.push_str(name.as_str())
        }
        Part::Class(name) => {
            spelled.push_str(".")?;
            spelled.push_str(name.as_str())
        }
        Part::Pseudo(name) => {
            spelled.push_str(":")?;
            spelled.push_str(name.name())
        }
    }
}

/// The selector in one spelling: a `>` before each child, a space before each other compound but
/// the first, and `*` only where nothing else stands.
fn spelling(alloc: Global, selector: &Selector) -> Result<String, AllocError> {
    let mut spelled = String::new(alloc);
    for (i, compound) in selector.compounds().as_slice().iter().enumerate() {
        if compound.child {
            spelled.push_str(">")?;
        } else if i > 0 {
            spelled.push_str(" ")?;
        }
        match compound.kind {
            Some(name) => spelled.push_str(name.as_str())?,
            None if compound.parts.as_slice().is_empty() => spelled.push_str("*")?,
            None => {}
        }
        for part in compound.parts.as_slice() {
            push_part(&mut spelled, part)?;
        }
    }
    Ok(spelled)
}

/// The spelling of the copy of the selector that a text is, or the place of its first fault.
fn answer(alloc: Global, text: &str) -> Result<String, Fail> {
    if text.len() >= 1000 {
        return Err(Fail::from("a long text"));
    }
    match read_selector(alloc, text) {
        Ok(selector) => Ok(spelling(alloc, &selector.copy()?)?),
        Err(SelectFault::Grammar { place }) => Ok(format!(in alloc; "at {place}")?),
        Err(SelectFault::NoMemory) => Err(Fail::from("no memory")),
    }
}

/// The three counts of the selector that a text is.
fn counts(alloc: Global, text: &str) -> Result<String, Fail> {
    if text.len() >= 1000 {
        return Err(Fail::from("a long text"));
    }
    let Ok(selector) = read_selector(alloc, text) else {
        return Err(Fail::from("refused"));
    };
    let (ids, classes, types) = specificity(&selector);
    Ok(format!(in alloc; "{ids} {classes} {types}")?)
}

#[test]
fn selectors_are_read(rt: HostRuntime) -> Result<(), Fail> {
    let alloc = rt.alloc();
    each_line(
        "\
A => A\n\
* => *\n\
_ => _\n\
a-b_9 => a-b_9\n\
#a => #a\n\
#_- => #_-\n\
.a => .a\n\
:hover:focus:focus-within:blur:enabled => :hover:focus:focus-within:blur:enabled\n\
:disabled:dark:light:first-child:last-child => :disabled:dark:light:first-child:last-child\n\
*.a => .a\n\
*#a => #a\n\
A#b.c:dark#d => A#b.c:dark#d\n\
.a.a => .a.a\n\
A B => A B\n\
A>B => A>B\n\
A > B => A>B\n\
A/**/>/**/B => A>B\n\
A /**/ B => A B\n\
A/**/ B => A B\n\
A /**/B => A B\n\
A  \tB => A B\n\
\u{20}A  => A\n\
/**/A/**/ => A\n\
\u{20}/**/ A /**/  => A\n\
A * => A *\n\
* > * => *>*\n\
A B>C D => A B>C D\n\
#a .b:focus-within => #a .b:focus-within\n\
a b c d e f g h i j k l m n o p => a b c d e f g h i j k l m n o p\n\
#a234567890123456789012345678901234567890123456789012345678901234 => #a234567890123456789012345678901234567890123456789012345678901234",
        |text| answer(alloc, text),
    )
}

#[test]
fn the_first_fault_is_told(rt: HostRuntime) -> Result<(), Fail> {
    let alloc = rt.alloc();
    each_line(
        " => at 0\n\
\u{20}\u{20} => at 2\n\
/**/ => at 4\n\
/* => at 0\n\
> a => at 0\n\
a > => at 3\n\
a >  => at 4\n\
a > > b => at 4\n\
** => at 1\n\
*A => at 1\n\
A* => at 1\n\
.a* => at 2\n\
#a* => at 2\n\
A. b => at 2\n\
A: hover => at 2\n\
A . => at 3\n\
A. => at 2\n\
A: => at 2\n\
.#a => at 1\n\
:.a => at 1\n\
A./**/b => at 2\n\
A/**/B => at 5\n\
A/**/.b => at 5\n\
#1 => at 0\n\
#-a => at 0\n\
A #9b => at 2\n\
A.5 => at 1\n\
.5 => at 0\n\
:hovers => at 1\n\
A:Hover => at 2\n\
A,B => at 1\n\
A { => at 2\n\
A 5 => at 2\n\
A $a => at 2\n\
A \u{e4} => at 2\n\
A.\u{e4} => at 2\n\
A B \u{e4} > => at 4\n\
A > /* => at 4\n\
#a2345678901234567890123456789012345678901234567890123456789012345 => at 0\n\
A .a2345678901234567890123456789012345678901234567890123456789012345 => at 3\n\
A >a2345678901234567890123456789012345678901234567890123456789012345 => at 3\n\
a b c d e f g h i j k l m n o p q => at 32\n\
a>b>c>d>e>f>g>h>i>j>k>l>m>n>o>p>q => at 32\n\
a b c d e f g h i j k l m n o p> => at 32",
        |text| answer(alloc, text),
    )
}

#[test]
fn specificity_counts(rt: HostRuntime) -> Result<(), Fail> {
    let alloc = rt.alloc();
    each_line(
        "\
* => 0 0 0\n\
A => 0 0 1\n\
A:hover > * => 0 1 1\n\
A B C => 0 0 3\n\
#a.b.c:dark => 1 3 0\n\
A#b *#c .d => 2 1 1",
        |text| counts(alloc, text),
    )
}

#[test]
fn a_selector_stands_among_tokens(rt: HostRuntime) -> Result<(), Fail> {
    let alloc = rt.alloc();
    let text = b"A > b /**/ , c:d {".as_slice();
    let scanned = scan(alloc, text)?;
    let tokens = scanned.tokens.as_slice();
    let Ok((selector, behind)) = selector_at(alloc, text, tokens, 0) else {
        return Err(Fail::from("refused"));
    };
    let spelled = spelling(alloc, &selector)?;
    expect(spelled.as_str() == "A>b", "the selector")?;
    expect(behind == 8, "what is left")?;
    let second = selector_at(alloc, text, tokens, 10);
    let fault = TokenFault::At {
        kind: SelectKind::UnknownPseudo,
        at: 12,
    };
    expect(second.err() == Some(fault), "the fault")
}
