//! Lines packed and shown again, and lines of which one word was changed.
use captures::base::{DigitValues, NoMemory, next_line, next_word, push, words};
use captures::capture_text::PackRefusal;
use captures::capture_text::many::pack_line;
use captures::many::{read_capture, show_line};
use std::alloc::Global;

/// Whether a line packs to these digits, and is shown of their frame again.
fn goes_round(alloc: Global, digits: &[u8], line: &[u8]) -> bool {
    let mut packed = Vec::new(alloc);
    let mut frame = Vec::new(alloc);
    let mut shown = Vec::new(alloc);
    pack_line(alloc, &DigitValues::new(), line, &mut packed) == Ok(true)
        && packed.as_slice() == digits
        && read_capture(&DigitValues::new(), &packed, &mut frame) == Ok(true)
        && show_line(&frame, &mut shown).is_ok()
        && shown.as_slice() == line
}

/// Frames in hexadecimal digits, each with the line that shows it.
const VECTORS: &[u8] = b"\
8113010a3c0015ce58044700270104470027026869 => clnp dt e life=10 sum=ce58 to=47002701 from=47002702 data=6869 rest=\n\
8113010a3c0018c85b0447002701044700270248656c6c6f => clnp dt e life=10 sum=c85b to=47002701 from=47002702 data=48656c6c6f rest=\n\
811301001c0013000004470027010447002702 => clnp dt - life=0 sum=0000 to=47002701 from=47002702 data= rest=\n\
811301ff3e0015f8360447002701044700270200ff => clnp erq e life=255 sum=f836 to=47002701 from=47002702 data=00ff rest=\n\
8113010a1f00130000044700270104470027028113 => clnp erp - life=10 sum=0000 to=47002701 from=47002702 data= rest=8113\n\
811301203c001560b004470027010447002702beef00deadfe => clnp dt e life=32 sum=60b0 to=47002701 from=47002702 data=beef rest=00deadfe\n\
810d010a3c000e57c201ff0100aa => clnp dt e life=10 sum=57c2 to=ff from=00 data=aa rest=\n\
8133010a3e0035f2181439840f80113800000000000001000100000000aa1439840f80113800000000000002000200000000bb0102 => clnp erq e life=10 sum=f218 to=39840f80113800000000000001000100000000aa from=39840f80113800000000000002000200000000bb data=0102 rest=\n\
8120010a3f002100001439840f80113800000000000001000100000000aa017f03 => clnp erp e life=10 sum=0000 to=39840f80113800000000000001000100000000aa from=7f data=03 rest=\n\
8113010a3c0014ff5c044700f201044700270261 => clnp dt e life=10 sum=ff5c to=4700f201 from=47002702 data=61 rest=\n\
8113010a1f001445ff0447002701044700270262 => clnp erp - life=10 sum=45ff to=47002701 from=47002702 data=62 rest=\n\
8119010abc001ca88004470027010447002702a1b20000001c616263 => clnp dt se life=10 sum=a880 to=47002701 from=47002702 id=a1b2 off=0 total=28 data=616263 rest=\n\
8119010afc0021000004470027010447002702ffff0000002d0001020304050607 => clnp dt sme life=10 sum=0000 to=47002701 from=47002702 id=ffff off=0 total=45 data=0001020304050607 rest=\n\
8119010adc00214df104470027010447002702ffff0008002d08090a0b0c0d0e0f => clnp dt sm life=10 sum=4df1 to=47002701 from=47002702 id=ffff off=8 total=45 data=08090a0b0c0d0e0f rest=\n\
8119010a9c001d000004470027010447002702ffff0010002d10111213ee => clnp dt s life=10 sum=0000 to=47002701 from=47002702 id=ffff off=16 total=45 data=10111213 rest=ee\n\
8119010abc001fe6cd044700270104470027020001ffe0fffffafbfcfdfeff => clnp dt se life=10 sum=e6cd to=47002701 from=47002702 id=0001 off=65504 total=65535 data=fafbfcfdfeff rest=\n\
811c010afe0024a0b404470027010447002702000200000025cd01010001020304050607 => clnp erq sme life=10 sum=a0b4 to=47002701 from=47002702 id=0002 off=0 total=37 opt=cd:01 data=0001020304050607 rest=\n\
8119010a9f0019000004470027010447002702000000000019 => clnp erp s life=10 sum=0000 to=47002701 from=47002702 id=0000 off=0 total=25 data= rest=\n\
8119010afc0019f53f0447002701044700270200030005001f => clnp dt sme life=10 sum=f53f to=47002701 from=47002702 id=0003 off=5 total=31 data= rest=\n\
81fe010a3c0100465204470027010447002702cce900000000000000000000000000000000000000000000000000000000000000000000000000000000000000000000000000000000000000000000000000000000000000000000000000000000000000000000000000000000000000000000000000000000000000000000000000000000000000000000000000000000000000000000000000000000000000000000000000000000000000000000000000000000000000000000000000000000000000000000000000000000000000000000000000000000000000000000000000000000000000000000000000000000000000000000000000000000ff6869 => clnp dt e life=10 sum=4652 to=47002701 from=47002702 opt=cc:00000000000000000000000000000000000000000000000000000000000000000000000000000000000000000000000000000000000000000000000000000000000000000000000000000000000000000000000000000000000000000000000000000000000000000000000000000000000000000000000000000000000000000000000000000000000000000000000000000000000000000000000000000000000000000000000000000000000000000000000000000000000000000000000000000000000000000000000000000000000000000000000000000000000000000000000000000000ff data=6869 rest=\n\
811a010a1c001c000004470027010447002702cc03cc00c5cc006869 => clnp dt - life=10 sum=0000 to=47002701 from=47002702 opt=cc:cc00c5 opt=cc: data=6869 rest=\n\
8116010a3c0017849604470027010447002702c5014001 => clnp dt e life=10 sum=8496 to=47002701 from=47002702 opt=c5:40 data=01 rest=\n\
8118010a1c0019000004470027010447002702c503bf000102 => clnp dt - life=10 sum=0000 to=47002701 from=47002702 opt=c5:bf0001 data=02 rest=\n\
8117010a3e0018000004470027010447002702c502c00003 => clnp erq e life=10 sum=0000 to=47002701 from=47002702 opt=c5:c000 data=03 rest=\n\
8121010a3c0023b79704470027010447002702c80c000304470027fe04470027ff6869 => clnp dt e life=10 sum=b797 to=47002701 from=47002702 opt=c8:000304470027fe04470027ff data=6869 rest=\n\
812e010a1c0030000004470027010447002702c819010501071439840f80113800000000000001000100000000aa6869 => clnp dt - life=10 sum=0000 to=47002701 from=47002702 opt=c8:010501071439840f80113800000000000001000100000000aa data=6869 rest=\n\
811d010a3c001f000004470027010447002702c80800090247010247026869 => clnp dt e life=10 sum=0000 to=47002701 from=47002702 opt=c8:0009024701024702 data=6869 rest=\n\
8117010a1f00190f5e04470027010447002702c80201036869 => clnp erp - life=10 sum=0f5e to=47002701 from=47002702 opt=c8:0103 data=6869 rest=\n\
811b010a3c001d000004470027010447002702cb060003ffffffff6869 => clnp dt e life=10 sum=0000 to=47002701 from=47002702 opt=cb:0003ffffffff data=6869 rest=\n\
8120010a3c0022483104470027010447002702cb0b010902470102aabb0000006869 => clnp dt e life=10 sum=4831 to=47002701 from=47002702 opt=cb:010902470102aabb000000 data=6869 rest=\n\
811f010a1e0021000004470027010447002702cb0a000b04470027ff0247ff6869 => clnp erq - life=10 sum=0000 to=47002701 from=47002702 opt=cb:000b04470027ff0247ff data=6869 rest=\n\
8119010a1c001b540104470027010447002702cb0401ff15006869 => clnp dt - life=10 sum=5401 to=47002701 from=47002702 opt=cb:01ff1500 data=6869 rest=\n\
8116010a3c0018000004470027010447002702c3017f6869 => clnp dt e life=10 sum=0000 to=47002701 from=47002702 opt=c3:7f data=6869 rest=\n\
8117010a1c001941b604470027010447002702c30280016869 => clnp dt - life=10 sum=41b6 to=47002701 from=47002702 opt=c3:8001 data=6869 rest=\n\
8116010a3f00184f4104470027010447002702c301c86869 => clnp erp e life=10 sum=4f41 to=47002701 from=47002702 opt=c3:c8 data=6869 rest=\n\
8116010a3c0018000004470027010447002702cd01006869 => clnp dt e life=10 sum=0000 to=47002701 from=47002702 opt=cd:00 data=6869 rest=\n\
8116010a1e0018c69b04470027010447002702cd010e6869 => clnp erq - life=10 sum=c69b to=47002701 from=47002702 opt=cd:0e data=6869 rest=\n\
8117010a01002a09db04470027010447002702c102a0008113010a3c0015ce5804470027010447002702 => clnp er - life=10 sum=09db to=47002701 from=47002702 opt=c1:a000 data=8113010a3c0015ce5804470027010447002702 rest=\n\
811e010a21001e000004470027010447002702cd010ec102c0fecb020003 => clnp er e life=10 sum=0000 to=47002701 from=47002702 opt=cd:0e opt=c1:c0fe opt=cb:0003 data= rest=\n\
811d010aa1001fed960447002701044700270200040000001fc10242ff810900 => clnp er se life=10 sum=ed96 to=47002701 from=47002702 id=0004 off=0 total=31 opt=c1:42ff data=8109 rest=00\n\
81620180bc006458971439840f80113800000000000001000100000000aa1439840f80113800000000000002000200000000bb0c0d00000064cc020000cd01c8cb06000501ab0000c80c010804470027fe04470027ffc5028001c301c0cc03000000686981ff => clnp dt se life=128 sum=5897 to=39840f80113800000000000001000100000000aa from=39840f80113800000000000002000200000000bb id=0c0d off=0 total=100 opt=cc:0000 opt=cd:c8 opt=cb:000501ab0000 opt=c8:010804470027fe04470027ff opt=c5:8001 opt=c3:c0 opt=cc:000000 data=6869 rest=81ff\n\
820e0100040078b1cd04470027ff => ish hold=120 sum=b1cd title=470027ff rest=\n\
820f0100020078324b010447002702 => esh hold=120 sum=324b addr=47002702 rest=\n\
82110100060078adc80447002701010200 => rd hold=120 sum=adc8 to=47002701 via=02 title= rest=\n\
820e0100040078000004470027ff => ish hold=120 sum=0000 title=470027ff rest=\n\
820f01000200780000010447002702 => esh hold=120 sum=0000 addr=47002702 rest=\n\
8211010006007800000447002701010200 => rd hold=120 sum=0000 to=47002701 via=02 title= rest=\n\
820e0100040078b1cd04470027ffff => ish hold=120 sum=b1cd title=470027ff rest=ff\n\
820f0100020078324b010447002702820e01 => esh hold=120 sum=324b addr=47002702 rest=820e01\n\
82110100060078adc80447002701010200000000 => rd hold=120 sum=adc8 to=47002701 via=02 title= rest=000000\n\
821201000400785b3904470027ffc602001e => ish hold=120 sum=5b39 title=470027ff opt=c6:001e rest=\n\
821c01000400788fe804470027ffc506c000010203049900c602ffff => ish hold=120 sum=8fe8 title=470027ff opt=c5:c00001020304 opt=99: opt=c6:ffff rest=\n\
821401000200785395010447002702c60101c600 => esh hold=120 sum=5395 addr=47002702 opt=c6:01 opt=c6: rest=\n\
820a0100020078a65100 => esh hold=120 sum=a651 rest=\n\
82140100020078fd060204470027010447002702 => esh hold=120 sum=fd06 addr=47002701 addr=47002702 rest=\n\
82fe010002007838e37a0100010101020103010401050106010701080109010a010b010c010d010e010f0110011101120113011401150116011701180119011a011b011c011d011e011f0120012101220123012401250126012701280129012a012b012c012d012e012f0130013101320133013401350136013701380139013a013b013c013d013e013f0140014101420143014401450146014701480149014a014b014c014d014e014f0150015101520153015401550156015701580159015a015b015c015d015e015f0160016101620163016401650166016701680169016a016b016c016d016e016f0170017101720173017401750176017701780179 => esh hold=120 sum=38e3 addr=00 addr=01 addr=02 addr=03 addr=04 addr=05 addr=06 addr=07 addr=08 addr=09 addr=0a addr=0b addr=0c addr=0d addr=0e addr=0f addr=10 addr=11 addr=12 addr=13 addr=14 addr=15 addr=16 addr=17 addr=18 addr=19 addr=1a addr=1b addr=1c addr=1d addr=1e addr=1f addr=20 addr=21 addr=22 addr=23 addr=24 addr=25 addr=26 addr=27 addr=28 addr=29 addr=2a addr=2b addr=2c addr=2d addr=2e addr=2f addr=30 addr=31 addr=32 addr=33 addr=34 addr=35 addr=36 addr=37 addr=38 addr=39 addr=3a addr=3b addr=3c addr=3d addr=3e addr=3f addr=40 addr=41 addr=42 addr=43 addr=44 addr=45 addr=46 addr=47 addr=48 addr=49 addr=4a addr=4b addr=4c addr=4d addr=4e addr=4f addr=50 addr=51 addr=52 addr=53 addr=54 addr=55 addr=56 addr=57 addr=58 addr=59 addr=5a addr=5b addr=5c addr=5d addr=5e addr=5f addr=60 addr=61 addr=62 addr=63 addr=64 addr=65 addr=66 addr=67 addr=68 addr=69 addr=6a addr=6b addr=6c addr=6d addr=6e addr=6f addr=70 addr=71 addr=72 addr=73 addr=74 addr=75 addr=76 addr=77 addr=78 addr=79 rest=\n\
82210100020078e3030201491439840f8011380000000000000100010000000001 => esh hold=120 sum=e303 addr=49 addr=39840f8011380000000000000100010000000001 rest=\n\
821e0100040078082c1439840f8011380000000000000100010000000001 => ish hold=120 sum=082c title=39840f8011380000000000000100010000000001 rest=\n\
82480100060078822a1439840f80113800000000000001000100000000011439840f80113800000000000001000100000000011439840f8011380000000000000100010000000001 => rd hold=120 sum=822a to=39840f8011380000000000000100010000000001 via=39840f8011380000000000000100010000000001 title=39840f8011380000000000000100010000000001 rest=\n\
821a010006007869820447002701060a000000000204470027ff => rd hold=120 sum=6982 to=47002701 via=0a0000000002 title=470027ff rest=\n\
821a0100060078e2c00447002701010200e104ffffff00e20100 => rd hold=120 sum=e2c0 to=47002701 via=02 title= opt=e1:ffffff00 opt=e2:00 rest=\n\
821a010006007800000447002701010204470027ffc603000000 => rd hold=120 sum=0000 to=47002701 via=02 title=470027ff opt=c6:000000 rest=\n\
820e0100040000a25504470027ff => ish hold=0 sum=a255 title=470027ff rest=\n\
820f010002ffff23d2010447002702 => esh hold=65535 sum=23d2 addr=47002702 rest=\n\
82fe0100040078706204470027ffccee00000000000000000000000000000000000000000000000000000000000000000000000000000000000000000000000000000000000000000000000000000000000000000000000000000000000000000000000000000000000000000000000000000000000000000000000000000000000000000000000000000000000000000000000000000000000000000000000000000000000000000000000000000000000000000000000000000000000000000000000000000000000000000000000000000000000000000000000000000000000000000000000000000000000000000000000000000000000000000000 => ish hold=120 sum=7062 title=470027ff opt=cc:00000000000000000000000000000000000000000000000000000000000000000000000000000000000000000000000000000000000000000000000000000000000000000000000000000000000000000000000000000000000000000000000000000000000000000000000000000000000000000000000000000000000000000000000000000000000000000000000000000000000000000000000000000000000000000000000000000000000000000000000000000000000000000000000000000000000000000000000000000000000000000000000000000000000000000000000000000000000000000000 rest=\n\
";

#[test]
fn packs_and_shows_again(rt: HostRuntime) {
    assert!(rt; vectors_hold(rt.alloc(), VECTORS) == Some(65));
}

/// How many vectors there are, where each holds.
fn vectors_hold(alloc: Global, vectors: &[u8]) -> Option<u8> {
    let mut count: u8 = 0;
    let mut left = vectors;
    while let Some((vector, others)) = next_line(left) {
        if !is_vector(alloc, vector) {
            return None;
        }
        count = count.checked_add(1)?;
        left = others;
    }
    Some(count)
}

/// Whether the line of a vector packs to its digits, and is shown of their frame again.
fn is_vector(alloc: Global, vector: &[u8]) -> bool {
    let Some((digits, rest)) = next_word(vector) else {
        return false;
    };
    match rest.strip_prefix(b" => ") {
        Some(line) => goes_round(alloc, digits, line),
        None => false,
    }
}

/// Appends a word, behind a space where another stands before it.
fn push_word(word: &[u8], line: &mut Vec<u8>) -> Result<(), NoMemory> {
    if !line.is_empty() {
        push(b" ", line)?;
    }
    push(word, line)
}

/// Appends the line with another word in the place of one.
fn push_changed(
    line: &[u8],
    word: &[u8],
    other: &[u8],
    changed: &mut Vec<u8>,
) -> Result<(), NoMemory> {
    for each in words(line) {
        push_word(if each == word { other } else { each }, changed)?;
    }
    Ok(())
}

/// Whether the line with another word in the place of one is the line of no frame.
fn is_no_line(alloc: Global, line: &[u8], word: &[u8], other: &[u8]) -> bool {
    let mut changed = Vec::new(alloc);
    push_changed(line, word, other, &mut changed).is_ok()
        && appends_nothing(alloc, &changed, Err(PackRefusal::NotShown))
}

/// Whether the line that a change makes is the line of no frame. A change is a word, a space, and what stands in its
/// place.
fn is_refused(alloc: Global, line: &[u8], change: &[u8]) -> bool {
    let Some((word, rest)) = next_word(change) else {
        return false;
    };
    match rest.strip_prefix(b" ") {
        Some(other) => is_no_line(alloc, line, word, other),
        None => false,
    }
}

/// Whether no line that one of these changes makes is the line of a frame.
fn are_no_lines(alloc: Global, line: &[u8], changes: &[u8]) -> bool {
    let mut left = changes;
    while let Some((change, others)) = next_line(left) {
        if !is_refused(alloc, line, change) {
            return false;
        }
        left = others;
    }
    true
}

/// The line of an echo request with every field, and its changes.
const REQUEST: &[u8] =
    b"clnp erq sme life=10 sum=a0b4 to=47002701 from=47002702 id=0002 off=0 total=37 \
opt=cd:01 data=0001020304050607 rest=";

const REQUEST_CHANGES: &[u8] = b"\
clnp clns\n\
erq dt\n\
erq ERQ\n\
erq er\n\
sme ems\n\
sme sm\n\
sme me\n\
sme -\n\
life=10 life=11\n\
life=10 life=010\n\
life=10 life=266\n\
life=10 hold=10\n\
sum=a0b4 sum=a0b5\n\
sum=a0b4 sum=A0B4\n\
sum=a0b4 sum=a0b\n\
to=47002701 to=47002703\n\
to=47002701 to=47.002701\n\
to=47002701 to=\n\
from=47002702 from=47002703\n\
from=47002702 from=4700270\n\
from=47002702 via=47002702\n\
id=0002 id=0003\n\
id=0002 id=2\n\
off=0 off=8\n\
off=0 off=\n\
total=37 total=38\n\
total=37 total=65573\n\
opt=cd:01 opt=cd:02\n\
opt=cd:01 opt=CD:01\n\
opt=cd:01 opt=cd-01\n\
opt=cd:01 opt=cd\n\
opt=cd:01 opt=cd:01 opt=cc:\n\
data=0001020304050607 data=00010203040506\n\
data=0001020304050607 data=000102030405060\n\
data=0001020304050607 data=0001020304050607 data=\n\
rest= rest=FF\n\
rest= rest=0\n\
rest= rest= rest=\n\
rest= rest= \n\
rest= \n\
";

/// The line of an error report, and its changes.
const REPORT: &[u8] =
    b"clnp er se life=10 sum=ed96 to=47002701 from=47002702 id=0004 off=0 total=31 \
opt=c1:42ff data=8109 rest=00";

const REPORT_CHANGES: &[u8] = b"\
er dt\n\
se s\n\
sum=ed96 sum=ed97\n\
opt=c1:42ff opt=c1:42fe\n\
opt=c1:42ff \n\
data=8109 data=81\n\
rest=00 rest=0\n\
";

/// The line of an end system hello, and its changes.
const ESH: &[u8] = b"esh hold=120 sum=fd06 addr=47002701 addr=47002702 rest=";

const ESH_CHANGES: &[u8] = b"\
esh ish\n\
hold=120 hold=121\n\
sum=fd06 sum=fd07\n\
addr=47002702 addr=47002703\n\
addr=47002702 addr=\n\
addr=47002702 title=47002702\n\
rest= data= rest=\n\
";

/// The line of an intermediate system hello, and its changes.
const ISH: &[u8] = b"ish hold=120 sum=5b39 title=470027ff opt=c6:001e rest=";

const ISH_CHANGES: &[u8] = b"\
ish rd\n\
hold=120 hold=0120\n\
hold=120 life=120\n\
sum=5b39 sum=395b\n\
title=470027ff title=\n\
title=470027ff addr=470027ff\n\
opt=c6:001e opt=c6:001f\n\
opt=c6:001e opt=c6:00\n\
";

/// The line of a redirect, and its changes.
const RD: &[u8] = b"rd hold=120 sum=6982 to=47002701 via=0a0000000002 title=470027ff rest=";

const RD_CHANGES: &[u8] = b"\
rd esh\n\
hold=120 hold=65656\n\
to=47002701 to=47002702\n\
via=0a0000000002 via=0a0000000003\n\
title=470027ff title=\n\
title=470027ff title=470027fe\n\
rest= reset=\n\
";

/// Each line, and its changes.
const CHANGED: [(&[u8], &[u8]); 5] = [
    (REQUEST, REQUEST_CHANGES),
    (REPORT, REPORT_CHANGES),
    (ESH, ESH_CHANGES),
    (ISH, ISH_CHANGES),
    (RD, RD_CHANGES),
];

#[test]
fn finds_a_changed_word(rt: HostRuntime) {
    for (line, changes) in &CHANGED {
        assert!(rt; are_no_lines(rt.alloc(), line, changes));
    }
}

/// Whether packing the line answers this, and appends nothing to a `-`.
fn appends_nothing(alloc: Global, line: &[u8], answer: Result<bool, PackRefusal>) -> bool {
    let mut out = Vec::new(alloc);
    push(b"-", &mut out).is_ok()
        && pack_line(alloc, &DigitValues::new(), line, &mut out) == answer
        && out.as_slice() == b"-".as_slice()
}

/// Lines of no frame, and the answers to them.
const OTHERS: [(&[u8], Result<bool, PackRefusal>); 13] = [
    (b"", Ok(false)),
    (b"#", Ok(false)),
    (b"# alien", Ok(false)),
    (b"alien", Err(PackRefusal::NotPackable)),
    (b"refused G5 02 00 report", Err(PackRefusal::NotPackable)),
    (b"refused ", Err(PackRefusal::NotPackable)),
    (b"refused", Err(PackRefusal::NotShown)),
    (b"aliens", Err(PackRefusal::NotShown)),
    (b" alien", Err(PackRefusal::NotShown)),
    (b" ", Err(PackRefusal::NotShown)),
    (b"clnp", Err(PackRefusal::NotShown)),
    (b"clnp dt", Err(PackRefusal::NotShown)),
    (b"esh", Err(PackRefusal::NotShown)),
];

#[test]
fn tells_other_lines(rt: HostRuntime) {
    for (line, answer) in &OTHERS {
        assert!(rt; appends_nothing(rt.alloc(), line, *answer));
    }
}

/// The line of a data unit of 21 octets, and the digits of its frame.
const UNIT: &[u8] = b"clnp dt e life=10 sum=ce58 to=47002701 from=47002702 data=6869 rest=";

const UNIT_DIGITS: &[u8] = b"8113010a3c0015ce58044700270104470027026869";

/// Whether the unit's line with so many zeros behind it is made.
fn is_lengthened(zeros: usize, line: &mut Vec<u8>) -> bool {
    push(UNIT, line).is_ok() && line.resize(UNIT.len().saturating_add(zeros), b'0').is_ok()
}

/// Whether packing of a line answers this, and gives the unit's digits just where it packs.
fn packs_unit(alloc: Global, line: &[u8], answer: Result<bool, PackRefusal>) -> bool {
    let mut out = Vec::new(alloc);
    pack_line(alloc, &DigitValues::new(), line, &mut out) == answer
        && out.starts_with(UNIT_DIGITS) == answer.is_ok()
}

/// How many zeros stand behind the unit's line, and the answer to that.
const LONG: [(usize, Result<bool, PackRefusal>); 3] = [
    (139_958, Ok(true)),
    (139_960, Err(PackRefusal::Count)),
    (139_961, Err(PackRefusal::NotShown)),
];

#[test]
fn packs_70000_octets_and_no_more(rt: HostRuntime) {
    for (zeros, answer) in &LONG {
        let mut line = Vec::new(rt.alloc());
        assert!(rt; is_lengthened(*zeros, &mut line) && packs_unit(rt.alloc(), &line, *answer));
    }
}
