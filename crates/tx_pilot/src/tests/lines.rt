//! What lines spell.
use super::answer;
use std::test::Fail;
use tx_expect::each_line;

#[test]
fn keys(rt: HostRuntime) -> Result<(), Fail> {
    let alloc = rt.alloc();
    each_line(
        "\
press a => Press Char('a')\n\
press A => Press Char('A')\n\
press é => Press Char('é')\n\
press 世 => Press Char('世')\n\
press { => Press Char('{')\n\
press space => Press Char(' ')\n\
press enter => Press Enter\n\
press escape => Press Escape\n\
press tab => Press Tab\n\
press shift+tab => Press ShiftTab\n\
press backspace => Press Backspace\n\
press delete => Press Delete\n\
press up => Press Up\n\
press down => Press Down\n\
press left => Press Left\n\
press right => Press Right\n\
press home => Press Home\n\
press end => Press End\n\
press pageup => Press PageUp\n\
press pagedown => Press PageDown\n\
press f1 => Press Function(1)\n\
press f12 => Press Function(12)\n\
press ctrl+a => Press Ctrl(97)\n\
press ctrl+z => Press Ctrl(122)\n\
press ab => BadKey\n\
press f0 => BadKey\n\
press f13 => BadKey\n\
press f01 => BadKey\n\
press ctrl+A => BadKey\n\
press Enter => BadKey\n\
press \t => BadKey\n\
press \u{85} => BadKey\n\
press => Expected\n\
press  => Expected\n\
press   => Expected\n\
press  a => Expected\n\
press a  => Expected\n\
press a b => Expected\n\
press ab c => BadKey\n\
presss a => Expected\n\
Press a => Expected\n\
\u{20}press a => Expected",
        |given| answer(alloc, given),
    )
}

#[test]
fn places(rt: HostRuntime) -> Result<(), Fail> {
    let alloc = rt.alloc();
    each_line(
        "\
click 0 0 => ClickAt 0 0\n\
click 9999 9999 => ClickAt 9999 9999\n\
click 007 1 => ClickAt 7 1\n\
hover 3 4 => HoverAt 3 4\n\
hover 0000000000012 0 => HoverAt 12 0\n\
click 10000 0 => BadNumber\n\
click 0 10000 => BadNumber\n\
click -1 0 => BadNumber\n\
click +1 0 => BadNumber\n\
click x 0 => BadNumber\n\
click 0 x => BadNumber\n\
click 1.0 0 => BadNumber\n\
click 99999999999999999999 0 => BadNumber\n\
hover 10000 x => BadNumber\n\
hover 0 1x => BadNumber\n\
click 1 => Expected\n\
click 1  => Expected\n\
click => Expected\n\
click  => Expected\n\
click 1  2 => Expected\n\
click  1 2 => Expected\n\
click 1 2  => Expected\n\
click 1 2 3 => Expected\n\
click 1 '#s' => BadNumber\n\
click x => BadNumber\n\
hover 10000 => BadNumber\n\
hover => Expected\n\
hover 1 => Expected\n\
click\t1 2 => Expected",
        |given| answer(alloc, given),
    )
}

#[test]
fn targets(rt: HostRuntime) -> Result<(), Fail> {
    let alloc = rt.alloc();
    each_line(
        "\
click '#s' => Click 1:#s\n\
click 'Button.a' => Click 1:Button\n\
hover '.a .b' => Hover 2:.a\n\
disable '*' => Disable 1:*\n\
enable ' #s ' => Enable 1:#s\n\
remove 'A > B' => Remove 2:A\n\
remove '/*x*/#s' => Remove 1:#s\n\
click '' => BadSelector\n\
click '#' => BadSelector\n\
click 'A:nope' => BadSelector\n\
hover 'A,B' => BadSelector\n\
disable 'A/**/B' => BadSelector\n\
enable '1' => BadSelector\n\
remove '/*' => BadSelector\n\
click '#s => Expected\n\
click ' => Expected\n\
click #s => BadNumber\n\
disable #s => Expected\n\
disable => Expected\n\
enable  => Expected\n\
remove  '#s' => Expected\n\
disable '#s'  => Expected\n\
click '#s' 1 => Expected\n\
hover '#s'x => Expected\n\
remove '#'x => BadSelector\n\
disable '\\t' => Expected\n\
disable '\\ => Expected\n\
enable '#s''#s' => Expected\n\
remove s => Expected\n\
disable 1 2 => Expected",
        |given| answer(alloc, given),
    )
}

#[test]
fn sizes(rt: HostRuntime) -> Result<(), Fail> {
    let alloc = rt.alloc();
    each_line(
        "\
resize 1 1 => Resize 1 1\n\
resize 1024 512 => Resize 1024 512\n\
resize 0080 024 => Resize 80 24\n\
resize 0 1 => BadNumber\n\
resize 1025 1 => BadNumber\n\
resize 1 0 => BadNumber\n\
resize 1 513 => BadNumber\n\
resize 1 => Expected\n\
resize => Expected\n\
resize 1 1 1 => Expected\n\
resize '1' 1 => BadNumber\n\
resize 1,1 => BadNumber\n\
resize 1 1x => BadNumber\n\
resize 0 => BadNumber",
        |given| answer(alloc, given),
    )
}

#[test]
fn simple_words(rt: HostRuntime) -> Result<(), Fail> {
    let alloc = rt.alloc();
    each_line(
        "\
pause => Pause\n\
theme dark => Theme true\n\
theme light => Theme false\n\
\u{20}=> nothing\n\
pause  => Expected\n\
pause x => Expected\n\
pauses => Expected\n\
PAUSE => Expected\n\
theme => Expected\n\
theme  => Expected\n\
theme Dark => Expected\n\
theme dark  => Expected\n\
theme  light => Expected\n\
theme 'dark' => Expected\n\
\u{20} => Expected\n\
\u{20}  => Expected\n\
jump => Expected\n\
'press' a => Expected\n\
press|a => Expected\n\
pause| => Expected\n\
| => Expected\n\
pause\r => Expected\n\
\u{feff}pause => Expected",
        |given| answer(alloc, given),
    )
}
