//! What stands behind a target.
use super::answer;
use std::test::Fail;
use tx_expect::each_line;

#[test]
fn classes(rt: HostRuntime) -> Result<(), Fail> {
    let alloc = rt.alloc();
    each_line(
        "\
class '#s' +a => AddClass 1:#s a\n\
class '#s' -a => RemoveClass 1:#s a\n\
class 'A' +_b-9 => AddClass 1:A _b-9\n\
class '#s' a => Expected\n\
class '#s' + => Expected\n\
class '#s' - => Expected\n\
class '#s' +1 => Expected\n\
class '#s' ++a => Expected\n\
class '#s' .a => Expected\n\
class '#s' +a b => Expected\n\
class '#s' +a  => Expected\n\
class '#s'  +a => Expected\n\
class '#s'+a => Expected\n\
class '#s' => Expected\n\
class '#s'  => Expected\n\
class +a => Expected\n\
class => Expected\n\
class '' +a => BadSelector\n\
class '#' a => BadSelector\n\
class '#s' +aaaaaaaaaaaaaaaaaaaaaaaaaaaaaaaaaaaaaaaaaaaaaaaaaaaaaaaaaaaaaaaa => AddClass 1:#s aaaaaaaaaaaaaaaaaaaaaaaaaaaaaaaaaaaaaaaaaaaaaaaaaaaaaaaaaaaaaaaa\n\
class '#s' +aaaaaaaaaaaaaaaaaaaaaaaaaaaaaaaaaaaaaaaaaaaaaaaaaaaaaaaaaaaaaaaaa => Expected",
        |given| answer(alloc, given),
    )
}

#[test]
fn texts(rt: HostRuntime) -> Result<(), Fail> {
    let alloc = rt.alloc();
    each_line(
        "\
text '#s' 'b' => SetText 1:#s [b]\n\
text '#s' '' => SetText 1:#s []\n\
text '#s' ' a  b ' => SetText 1:#s [ a  b ]\n\
text '#s' 'é世' => SetText 1:#s [é世]\n\
text '#s' 'a\tb' => SetText 1:#s [a\tb]\n\
text '#s' '\\\\' => SetText 1:#s [\\]\n\
text '#s' '{}+-' => SetText 1:#s [{}+-]\n\
text '#s' 'a\\t' => Expected\n\
text '#s' 'a\\ => Expected\n\
text '#s' 'a\\'b' => SetText 1:#s [a\"b]\n\
text '#s' 'a\\' => Expected\n\
text '#s' 'a => Expected\n\
text '#s' a => Expected\n\
text '#s' => Expected\n\
text '#s'  => Expected\n\
text '#s'  'a' => Expected\n\
text '#s' 'a'  => Expected\n\
text '#s' 'a''b' => Expected\n\
text '#s''a' => Expected\n\
text 'a' => Expected\n\
text '#s' 'a\u{1}' => Expected\n\
text '#s' 'a|' => Expected\n\
text '#' 'a' => BadSelector\n\
text '#' a => BadSelector\n\
text '# => Expected",
        |given| answer(alloc, given),
    )
}

#[test]
fn inline_texts(rt: HostRuntime) -> Result<(), Fail> {
    let alloc = rt.alloc();
    each_line(
        "\
style '#s' {color: red;} => SetInline 1:#s [color: red;]\n\
style '#s' {} => SetInline 1:#s []\n\
style '#s' { } => SetInline 1:#s [ ]\n\
style '#s' {;} => SetInline 1:#s [;]\n\
style '#s' {color: red} => SetInline 1:#s [color: red]\n\
style '#s' {/*}*/} => SetInline 1:#s [/*}*/]\n\
style '#s' {width: 1fr; height: 2} => SetInline 1:#s [width: 1fr; height: 2]\n\
style '#s' {a: b;} => BadInline\n\
style '#s' {color} => BadInline\n\
style '#s' {/*} => BadInline\n\
style '#s' {color: red;}} => BadInline\n\
style '#s' {{color: red;} => BadInline\n\
style '#s' {color: $nope;} => BadInline\n\
style '#s' {color: red;} } => BadInline\n\
style '#s' {a: b;} x => Expected\n\
style '#s' {color: red; => Expected\n\
style '#s' { => Expected\n\
style '#s' } => Expected\n\
style '#s'{} => Expected\n\
style '#s'  {} => Expected\n\
style '#s' {}  => Expected\n\
style '#s' => Expected\n\
style {} => Expected\n\
style '#s' 'x' => Expected\n\
style '#' {a: b;} => BadSelector\n\
style '#' x => BadSelector\n\
style '#s' x {a: b;} => Expected",
        |given| answer(alloc, given),
    )
}

#[test]
fn rows(rt: HostRuntime) -> Result<(), Fail> {
    let alloc = rt.alloc();
    each_line(
        "\
mount '#s' Static => Mount 1:#s Static '' {}\n\
mount 'Screen' Screen => Mount 1:Screen Screen '' {}\n\
mount '#s' Static #a .b .c disabled 'x' {color: red;} => Mount 1:#s Static 'x' {color: red;}\n\
mount '#s' Counter => Mount 1:#s Counter '' {}\n\
mount '#s' Checkbox on => Mount 1:#s Checkbox '' {}\n\
mount '#s' ProgressBar total 40 => Mount 1:#s ProgressBar '' {}\n\
mount '#s' Static {/*}*/} => Mount 1:#s Static '' {/*}*/}\n\
mount '#s' static => Expected\n\
mount '#s'  Static => Expected\n\
mount '#s' Static  => Expected\n\
mount '#s' Static '' => Expected\n\
mount '#s' Static {} => Expected\n\
mount '#s' Static .a #b => Expected\n\
mount '#s' Static .a .a => Expected\n\
mount '#s' ProgressBar total 007 => Expected\n\
mount '#s' ProgressBar total 100 => Expected\n\
mount '#s' Static on => Expected\n\
mount '#s' => Expected\n\
mount '#s'  => Expected\n\
mount Static => Expected\n\
mount '#s' bind a focus_next => Expected\n\
mount '#s'Static => Expected\n\
mount '#s' Static {a: b;} => BadInline\n\
mount '#s' Static 'x' {color} => BadInline\n\
mount '#s' Static {a: b;}  => Expected\n\
mount '#s' static {a: b;} => Expected\n\
mount '#s' Static 'x {a: b;} => Expected\n\
mount '#' Static => BadSelector\n\
mount '#' static {a: b;} => BadSelector",
        |given| answer(alloc, given),
    )
}

#[test]
fn orders_and_steps(rt: HostRuntime) -> Result<(), Fail> {
    let alloc = rt.alloc();
    each_line(
        "\
before '#a' '#b' => Before 1:#a 1:#b\n\
before 'A B' '*' => Before 2:A 1:*\n\
before '#a' '#' => BadSelector\n\
before '#' '#b' => BadSelector\n\
before '#' b => BadSelector\n\
before '#a' b => Expected\n\
before '#a' => Expected\n\
before '#a' '#b'  => Expected\n\
before '#a'  '#b' => Expected\n\
before '#a''#b' => Expected\n\
before a '#' => Expected\n\
advance '#s' 0 => Advance 1:#s 0\n\
advance '#s' 1000000 => Advance 1:#s 1000000\n\
advance '#s' 0010 => Advance 1:#s 10\n\
advance '#s' 1000001 => BadNumber\n\
advance '#s' x => BadNumber\n\
advance '#s' -1 => BadNumber\n\
advance '#' x => BadSelector\n\
advance '#s'  => Expected\n\
advance '#s' => Expected\n\
advance '#s' 1 2 => Expected\n\
advance '#s' x 2 => BadNumber\n\
advance '#s'  1 => Expected\n\
advance 1 => Expected",
        |given| answer(alloc, given),
    )
}
