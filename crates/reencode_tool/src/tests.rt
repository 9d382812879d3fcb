//! What no clause says: that the calls succeed over memory, what is printed and said, and how the
//! program ends where the outside is slow or fails.
use reencode_hooks::{Asked, Chain, ChainError, Error, Renamer, Unmapped};
use reencode_run::answer::{Answer, ReencodingFault, TaskFault, reencoding_fault};
use reencode_run::failing_memory::{MemShelf, MemSink, MemSource};
use reencode_run::outside::{Failed, Shelf, ShelfFault, Sink, Source};
use reencode_run::renamers::{Refusal, Renamers};
use reencode_run::renaming::{RenamingFault, renaming_of};
use reencode_run::report::lines_of;
use reencode_run::standard::FileShelf;
use reencode_run::sure_memory::{SureShelf, SureSink, SureSource};
use reencode_run::tool::run;
use std::alloc::Global;
use std::process::Abort;
use std::test::Fail;
use wasm_leb::{List, NoMemory};
use wasm_shapes::Space;

/// The small module that a README shows, as digits: one function that adds two numbers.
const MODULE: &[u8] =
    b"0061736d0100000001070160027f7f017f03020100070501016600000a09010700200020016a0b";

/// What is printed of it.
const REPORT: &[u8] =
    b"0061736d0100000001070160027f7f017f03020100070501016600000a09010700200020016a0b\nasked function 1 type 1 section_hook 5\n";

/// It, with blanks and digits of both cases.
const SPACED: &[u8] =
    b"00 61 73 6D 01 00 00 00\r\n01070160027F7F017F\t0302010007\n05010166000 00A09010700200020016a0b\r\n";

/// What is printed of it by `twice`, by `keep-report`, and of a made module.
const TWICE: &[u8] =
    b"0061736d0100000001070160027f7f017f03020100070501016600000a09010700200020016a0b\nasked function 1 type 1 section_hook 5\nasked function 1 type 1 section_hook 5\n";

const KEPT: &[u8] = b"kept 32 39\nbytes 7 of 39\nasked function 1 type 1 section_hook 5\n";

const MADE: &[u8] = b"functions 3 input 59 output 47\nasked function 3 type 3 section_hook 4\n";

const USAGE: &[u8] =
    b"usage: [-x] [-m CEILING] plain | rename FILE | twice FILE FILE | generate N | keep-report | renumber FILE | prune | merge FILE\n";

/// The header of a module, in binary.
const BINARY: &[u8] = b"\0asm\x01\0\0\0";

/// What a case says by each field that it leaves out, and so all the fields.
const USUAL: &str = "calls=1 1
words=-x plain
file={}
second={}
shelf_fails=
text=MODULE
most=16
read_fails=
write_fails=
err_fails=
status=0
out=
err=";

/// Runs of the program over memory, as text, since a case more then costs no proof. An empty line
/// stands between two cases, and a line is a field or, behind a `#`, a remark. `file` is the text
/// that the shelf has of the name `r`, `second` that of the name `s`, and `text` the input. A read and a write take at most `most`
/// bytes, and the calls of the numbers in a field of failures fail. The run ends with the status, and
/// the sinks then hold `out` and `err`. A `/` stands for a line end, and a word in capitals for the
/// constant of that name. A case is run for each number from the first to the last that `calls` says: a `K`
/// stands for it among the failures, and in front of a text for the bytes of that which come before its K-th.
const CASES: &str = r#"words=rename
status=2
err=USAGE

words=-m 6 -x plain
status=2
err=USAGE

words=-m 01 plain
status=2
err=USAGE

words=generate 0
status=2
err=USAGE

words=generate 1000001
status=2
err=USAGE

# Counts and sizes that the bytes do not hold, long numbers, and what stands behind the last row.
words=-x plain
text=0061736d01000000018080808010
status=5
err=parse error at 8/

words=-x plain
text=0061736d0100000001ffffffff0f
status=5
err=parse error at 8/

words=-x plain
text=0061736d010000008000
status=5
err=parse error at 8/

words=-x plain
text=0061736d010000000303010000
status=5
err=parse error at 8/

words=-x plain
text=0061736d010000000305ffffffff0f
status=5
err=parse error at 8/

words=-x plain
text=0061736d0100000001010003060100
status=5
err=parse error at 11/

# A run of 4,294,967,295 locals in a body without operators.
words=-x plain
text=0061736d010000000a09010701ffffffff0f7f
out=0061736d010000000a09010701ffffffff0f7f/asked section_hook 2/

# A ceiling of 6, 8 and 9: the type section has 7 bytes, the code section 9.
words=-x -m 6 plain
status=10
err=too large: 7 over 6/

words=-x -m 8 plain
status=10
err=too large: 9 over 8/

words=-x -m 9 plain
out=REPORT

# A strict renaming and a ceiling: what closes or is asked first is told.
words=-x -m 6 rename r
file={"strict":true,"type":{"0":0}}
status=10
err=too large: 7 over 6/

words=-x -m 7 rename r
file={"strict":true,"type":{"0":0}}
status=6
err=refused function 0/

words=-x -m 6 rename r
file={"strict":true}
status=10
err=too large: 7 over 6/

words=-x -m 8 rename r
file={"strict":true,"type":{"0":0},"function":{"0":0}}
status=10
err=too large: 9 over 8/

words=-x -m 6 twice r s
second={"strict":true}
status=10
err=too large: 7 over 6/

words=-x -m 7 twice s r
second={"strict":true,"type":{"0":0}}
status=6
err=refused function 0 by 1/

# And bytes without a reading: the second of two exports has none.
words=-x -m 3 rename r
file={"strict":true}
text=0061736d01000000 010401600000 07050201660000
status=10
err=too large: 4 over 3/

words=-x -m 4 rename r
file={"strict":true}
text=0061736d01000000 010401600000 07050201660000
status=6
err=refused function 0/

words=-x -m 3 rename r
text=0061736d01000000 010401600000 03020101 0303010000
status=10
err=too large: 4 over 3/

# Binary input.
words=plain
text=BINARY
out=0061736d01000000/asked section_hook 1/

words=generate 3
out=functions 3 input 59 output 47/asked function 3 type 3 section_hook 4/

words=generate 100000
out=functions 100000 input 1491772 output 1275260/asked function 100000 type 100000 section_hook 4/

# An unknown section between two type sections that are empty.
words=-x plain
text=0061736d01000000 010100 6302aabb 010100
out=0061736d010000000101006302aabb010100/asked section_hook 3/

# The names of locals by their function, and those of functions.
words=-x rename r
file={"function":{"0":3}}
text=0061736d01000000 000d046e616d65 0206010001000178
out=0061736d01000000000d046e616d650206010301000178/asked function 1 section_hook 1/

words=-x rename r
file={"function":{"0":3}}
text=0061736d01000000 000b046e616d65 010401000166
out=0061736d01000000000b046e616d65010401030166/asked function 1 section_hook 1/

# The export names function 1.
words=-x rename r
file={"function":{"0":1}}
out=0061736d0100000001070160027f7f017f03020100070501016600010a09010700200020016a0b/asked function 1 type 1 section_hook 5/

words=-x rename r
file={"strict":true,"type":{"0":0}}
status=6
err=refused function 0/

# Indices of each kind of section, and the order in which they are asked.
words=-x rename r
file={"function":{"0":300}}
text=0061736d01000000080100
out=0061736d010000000802ac02/asked function 1 section_hook 2/

words=-x rename r
file={"type":{"0":64}}
text=0061736d010000000a0a01080002000b1100000b
out=0061736d010000000a0b01090002c0000b1140000b/asked table 1 type 2 section_hook 2/

words=-x rename r
file={"table":{"0":5}}
text=0061736d010000000907010041000b0100
out=0061736d01000000090901020541000b000100/asked function 1 table 1 section_hook 2/

words=-x rename r
file={"table":{"5":0}}
text=0061736d01000000090901020541000b000100
out=0061736d01000000090901020041000b000100/asked function 1 table 1 section_hook 2/

words=-x rename r
file={"function":{"0":1},"type":{"0":2}}
text=0061736d0100000001040160000002080101610162037f000409014000700001d2000b05030100010d030100000606017f00412a0b0c0100
out=0061736d0100000001040160000002080101610162037f000409014000700001d2010b05030100010d030100020606017f00412a0b0c0100/asked function 1 type 1 data_count 1 section_hook 8/

words=-x rename r
file={"type":{"0":1}}
text=0061736d01000000010c014e0250005f005001005f00
out=0061736d01000000010c014e0250005f005001015f00/asked type 1 section_hook 2/

words=-x rename r
file={"memory":{"0":1}}
text=0061736d010000000a0a01080041002802041a0b
out=0061736d010000000a0b0109004100284201041a0b/asked memory 1 section_hook 2/

words=-x rename r
file={"strict":true}
text=0061736d010000000907010023000b0100
status=6
err=refused function 0/

words=-x rename r
file={"strict":true,"function":{"0":0}}
text=0061736d010000000907010023000b0100
status=6
err=refused table 0/

words=-x rename r
file={"strict":true,"function":{"0":0},"table":{"0":0}}
text=0061736d010000000907010023000b0100
status=6
err=refused global 0/

words=-x rename r
file={"strict":true}
text=0061736d0100000009080105630001d2000b
status=6
err=refused function 0/

# Two renamings, one after the other: a table that the first moves and the second moves back stays left out.
words=-x twice r s
file={"table":{"0":5}}
second={"table":{"5":0}}
text=0061736d010000000907010041000b0100
out=0061736d010000000907010041000b0100/asked function 1 table 1 section_hook 2/asked function 1 table 1 section_hook 2/

# The second is asked with the first one's answers.
words=-x twice r s
file={"function":{"0":1}}
second={"strict":true,"type":{"0":0},"function":{"1":2}}
out=0061736d0100000001070160027f7f017f03020100070501016600020a09010700200020016a0b/asked function 1 type 1 section_hook 5/asked function 1 type 1 section_hook 5/

words=-x twice r s
second={"strict":true}
status=6
err=refused type 0 by 2/

words=-x twice s r
second={"strict":true}
status=6
err=refused type 0 by 1/

words=-x twice r s
file={"strict":true,"type":{"0":0}}
second={"strict":true,"type":{"0":0},"function":{"0":0}}
status=6
err=refused function 0 by 1/

# Bytes without a reading: the second of two exports has none.
words=-x twice r s
file={"strict":true}
text=0061736d01000000 07050201660000
status=6
err=refused function 0 by 1/

words=-x twice r s
second={"strict":true}
text=0061736d01000000 07050201660000
status=6
err=refused function 0 by 2/

words=-x twice r s
text=0061736d01000000 03020101 0303010000
status=5
err=parse error at 12/

words=-x -m 6 twice r s
status=10
err=too large: 7 over 6/

words=-m 9 twice r s
text=BINARY
out=0061736d01000000/asked section_hook 1/asked section_hook 1/

words=twice r
status=2
err=USAGE

words=twice r s r
status=2
err=USAGE

words=-x twice r s
shelf_fails=2
status=12
err=shelf fault/

words=-x twice r q
status=12
err=shelf fault/

# The first says no renaming, and the second is not fetched.
words=-x twice r q
file=[]
status=11
err=bad renaming/

words=-x twice r s
second={"strict":1}
status=11
err=bad renaming/

words=-x twice r s
second=LONG
status=13
err=too long/

# What of the input is kept.
words=-x keep-report
out=kept 32 39/bytes 7 of 39/asked function 1 type 1 section_hook 5/

words=keep-report
text=BINARY
out=bytes 0 of 8/asked section_hook 1/

# The first body has a number that is not spelled the shortest, the second has not.
words=-x keep-report
text=0061736d01000000 010401600000 0303020000 0a0c02 0600 4180001a0b 0300010b
out=kept 30 33/bytes 3 of 32/asked type 2 section_hook 4/

words=-x keep-report
text=0061736d0d000100
status=8
err=There was a section that does not belong in a core wasm module/

words=-x -m 6 keep-report
status=10
err=too large: 7 over 6/

words=keep-report r
status=2
err=USAGE

# What says no renaming.
words=-x rename r
file={"function":{"00":1}}
status=11
err=bad renaming/

words=-x rename r
file={"function":{"0":1.0}}
status=11
err=bad renaming/

words=-x rename r
file={"function":{"0":4294967296}}
status=11
err=bad renaming/

words=-x rename r
file={"functions":{}}
status=11
err=bad renaming/

words=-x rename r
file=[]
status=11
err=bad renaming/

words=-x rename r
file={"strict":1}
status=11
err=bad renaming/

words=-x rename r
file=LONG
status=13
err=too long/

# An input without an end is read up to one byte behind 64 MiB: by 1024 reads of 64 KiB, and one more. None is made behind that, for
# it would fail.
words=-x plain
text=ENDLESS
most=65536
read_fails=1026
status=13
err=too long/

words=-x plain
text=ENDLESS
most=65536
read_fails=1025
status=3
err=read fault/

# What stands first is told where a later object fails too: words, each file, input, digits, re-encoding.
words=rename
shelf_fails=1
read_fails=1
status=2
err=USAGE

words=-x rename r
file=[]
read_fails=1
write_fails=1
status=11
err=bad renaming/

words=-x rename q
read_fails=1
status=12
err=shelf fault/

words=-x rename r
file=LONG
read_fails=1
status=13
err=too long/

words=-x twice r s
file=[]
shelf_fails=2
status=11
err=bad renaming/

words=-x plain
shelf_fails=1
read_fails=1
status=3
err=read fault/

words=-x plain
text=00617
write_fails=1
status=14
err=not hex/

words=-x -m 6 plain
write_fails=1
status=10
err=too large: 7 over 6/

words=generate 3
shelf_fails=1
read_fails=1
out=functions 3 input 59 output 47/asked function 3 type 3 section_hook 4/

# The shelf fails, and has no such name.
words=-x rename r
shelf_fails=1
status=12
err=shelf fault/

words=rename q
status=12
err=shelf fault/

words=
status=2
err=USAGE

# The second read fails.
read_fails=2
status=3
err=read fault/

# The first write fails, and the fifth.
write_fails=1
status=4
err=write fault/

most=3
write_fails=5
status=4
out=0061736d0100
err=write fault/

text=00617
status=14
err=not hex/

text=0x
most=1
status=14
err=not hex/

# A failure of the last sink ends its text and changes no status.
text=00617
most=3
err_fails=2
status=14
err=not

out=REPORT

text=SPACED
most=1
out=REPORT

text=
status=5
err=parse error at 0/

# The header of a component alone, and a front of it.
text=0061736d0d000100
out=0061736d0d000100/asked/

text=0061736d0d0001
status=5
err=parse error at 0/

# Components: an alias further out, whose count stays.
words=-x rename r
file={"component_type":{"0":7}}
text=0061736d0d000100 06050103020100
out=0061736d0d00010006050103020107/asked component_type 1/

words=-x rename r
file={"strict":true}
text=0061736d0d000100 06050103020100
out=0061736d0d00010006050103020100/asked component_type 1/

# An import, a core instance, an instance, the start and an export.
words=-x rename r
file={"component_func":{"0":2},"module":{"0":3}}
text=0061736d0d000100 0a06010001610100 02080100000101611200 05080100000101610100 0903000000 0b0701000162010000
out=0061736d0d0001000a06010001610100020801000301016112000508010000010161010209030200000b0701000162010200/asked component_type 1 component_func 3 component 1 module 1 instance 1/

words=-x rename r
file={"component":{"0":9},"instance":{"0":8}}
text=0061736d0d000100 02080100000101611200 05080100000101610100
out=0061736d0d0001000208010000010161120805080100090101610100/asked component_func 1 component 1 module 1 instance 1/

# What an instance exports, and a value that is handed to the start.
words=-x rename r
file={"component_instance":{"0":1},"component_func":{"0":2},"component_value":{"5":6}}
text=0061736d0d000100 0606010100000161 090400010500
out=0061736d0d0001000606010100010161090402010600/asked component_instance 1 component_func 1 component_value 1/

# Core indices of a component, and the order in which they are asked.
words=-x rename r
file={"function":{"2":9},"component_type":{"3":1}}
text=0061736d0d000100 0806010000020003
out=0061736d0d0001000806010000090001/asked function 1 component_type 1/

words=-x rename r
file={"strict":true,"function":{"2":2}}
text=0061736d0d000100 08080100000201030003
status=6
err=refused memory 0/

words=-x rename r
file={"strict":true}
text=0061736d0d000100 080701090005010300
status=6
err=refused memory 0/

words=-x twice r s
second={"strict":true}
text=0061736d0d000100 0806010000020003
status=6
err=refused function 2 by 2/

# Two renamings, one after the other.
words=-x twice r s
file={"component_type":{"0":7}}
second={"component_type":{"7":300}}
text=0061736d0d000100 06050103020100
out=0061736d0d000100060601030201ac02/asked component_type 1/asked component_type 1/

# A ceiling, also of a section of an id that no table knows.
words=-x -m 4 plain
text=0061736d0d000100 06050103020100
status=10
err=too large: 5 over 4/

words=-x -m 5 plain
text=0061736d0d000100 0685000103020100
out=0061736d0d00010006050103020100/asked component_type 1/

words=-x -m 1 plain
text=0061736d0d000100 7f02aabb
status=10
err=too large: 2 over 1/

words=-x -m 2 plain
text=0061736d0d000100 7f02aabb 0c00
out=0061736d0d0001007f02aabb0c00/asked/

# Behind a section that is refused, or accepted, stands one without a reading: an alias is missing.
words=-x -m 4 plain
text=0061736d0d000100 06050103020100 060101
status=10
err=too large: 5 over 4/

words=-x rename r
file={"strict":true}
text=0061736d0d000100 0806010000020003 060101
status=6
err=refused function 2/

text=0061736d0d000100 06050103020100 060101
status=5
err=parse error at 15/

text=0061736d0d000100 8000
status=5
err=parse error at 8/

# A nested core module without bytes.
text=0061736d0d000100 0100
status=5
err=parse error at 8/

# A nested core module, whose section hook is asked; the header of the other kind in the place of each.
text=0061736d0d000100 01080061736d01000000
out=0061736d0d00010001080061736d01000000/asked section_hook 1 push 1 pop 1/

text=0061736d0d000100 01080061736d0d000100
status=8
err=There was a section that does not belong in a core wasm module/

text=0061736d0d000100 04080061736d01000000
status=9
err=There was a section that does not belong in a component/

# The size of a nested component passes the end, and one has no bytes.
text=0061736d0d000100 04090061736d0d000100
status=5
err=parse error at 8/

text=0061736d0d000100 0400
status=5
err=parse error at 8/

# The size of a code section of a nested module passes its end: with a number behind it, and with none.
text=0061736d0d000100 010b0061736d010000000a0901
status=7
err=invalid code section size/

text=0061736d0d000100 010a0061736d010000000a09
status=5
err=parse error at 8/

# Types of components: an instance type, a function type, and module types, of which the first has no declarations.
text=0061736d0d000100 0709014201040101610100
out=0061736d0d0001000709014201040001610100/asked component_type 1 push 1 pop 1/

text=0061736d0d000100 07080140010178790073
out=0061736d0d00010007080140010178790073/asked/

text=0061736d0d000100 03020150
status=5
err=parse error at 8/

text=0061736d0d000100 0303015000
out=0061736d0d0001000303015000/asked push 1 pop 1/

# Names of a component.
words=-x rename r
file={"component_func":{"0":2}}
text=0061736d0d000100 00160e636f6d706f6e656e742d6e616d65010501010001 66
out=0061736d0d00010000160e636f6d706f6e656e742d6e616d6501050101020166/asked component_func 1/

# A custom section of another name stays as it is, also one named as the names of a core module are.
text=0061736d0d000100 0004017800ff 0008046e616d65010500
out=0061736d0d0001000004017800ff0008046e616d65010500/asked/

# The second section has no reading.
text=0061736d01000000 03020101 0303010000
status=5
err=parse error at 12/

# The size of a code section passes the end: with a number behind it, and with none.
text=0061736d01000000 0a0901
status=7
err=invalid code section size/

text=0061736d01000000 0a09
status=5
err=parse error at 8/

# The tools over modules: their words.
words=renumber
status=2
err=USAGE

words=prune r
status=2
err=USAGE

words=merge
status=2
err=USAGE

words=merge r s
status=2
err=USAGE

# Functions in another order, and back.
words=-x renumber r
file=[1,0]
text=0061736d01000000 0108026000006000017f 0303020001 07050101660000 0a0c02050010011a0b040041070b
out=0061736d010000000108026000006000017f0303020100070501016600010a0c02040041070b050010001a0b/

words=-x renumber r
file= [ 1, 0 ] 
text=0061736d01000000 0108026000006000017f 0303020100 07050101660001 0a0c02040041070b050010001a0b
out=0061736d010000000108026000006000017f0303020001070501016600000a0c02050010011a0b040041070b/

words=renumber r
file=[]
text=BINARY
out=0061736d01000000/

# No order of these functions.
words=-x renumber r
file=[0,0]
text=0061736d01000000 0108026000006000017f 0303020001 07050101660000 0a0c02050010011a0b040041070b
status=17
err=not an order at 1/

words=-x renumber r
file=[0]
text=0061736d01000000 0108026000006000017f 0303020001 07050101660000 0a0c02050010011a0b040041070b
status=17
err=not an order at 1/

words=-x renumber r
file=[]
text=0061736d01000000 0108026000006000017f 0303020001 07050101660000 0a0c02050010011a0b040041070b
status=17
err=not an order at 0/

words=-x renumber r
file=[0,1,2]
text=0061736d01000000 0108026000006000017f 0303020001 07050101660000 0a0c02050010011a0b040041070b
status=17
err=not an order at 2/

# What is no array of whole numbers.
words=-x renumber r
file={}
text=0061736d01000000 0108026000006000017f 0303020001 07050101660000 0a0c02050010011a0b040041070b
status=11
err=bad renaming/

words=-x renumber r
file=[1.0,0]
text=0061736d01000000 0108026000006000017f 0303020001 07050101660000 0a0c02050010011a0b040041070b
status=11
err=bad renaming/

words=-x renumber r
file=[1e0,0]
text=0061736d01000000 0108026000006000017f 0303020001 07050101660000 0a0c02050010011a0b040041070b
status=11
err=bad renaming/

words=-x renumber r
file=[-0,1]
text=0061736d01000000 0108026000006000017f 0303020001 07050101660000 0a0c02050010011a0b040041070b
status=11
err=bad renaming/

words=-x renumber r
file=[4294967296]
text=0061736d01000000 0108026000006000017f 0303020001 07050101660000 0a0c02050010011a0b040041070b
status=11
err=bad renaming/

words=-x renumber r
file=["0"]
text=0061736d01000000 0108026000006000017f 0303020001 07050101660000 0a0c02050010011a0b040041070b
status=11
err=bad renaming/

words=-x renumber r
file=[[0]]
text=0061736d01000000 0108026000006000017f 0303020001 07050101660000 0a0c02050010011a0b040041070b
status=11
err=bad renaming/

words=-x renumber r
file=[0,1
text=0061736d01000000 0108026000006000017f 0303020001 07050101660000 0a0c02050010011a0b040041070b
status=11
err=bad renaming/

words=-x renumber r
file=0
text=0061736d01000000 0108026000006000017f 0303020001 07050101660000 0a0c02050010011a0b040041070b
status=11
err=bad renaming/

# No file has this name; and what comes first is told.
words=-x renumber t
file=[1,0]
text=0061736d01000000 0108026000006000017f 0303020001 07050101660000 0a0c02050010011a0b040041070b
status=12
err=shelf fault/

words=-x renumber r
file=[1,0]
text=00617
status=14
err=not hex/

words=-x renumber r
file={}
text=00617
status=11
err=bad renaming/

# No core modules, and faults in their order.
words=-x renumber r
file=[]
text=0061736d0d000100
status=8
err=There was a section that does not belong in a core wasm module/

words=-x renumber r
file=[]
text=0061736d01000000 0a0901
status=7
err=invalid code section size/

words=-x renumber r
file=[]
text=0061736d01000000 0305ffffffff0f
status=5
err=parse error at 8/

words=-x renumber r
file=[3]
text=0061736d01000000 030100 030100 0a0100 0a0100
status=16
err=repeated section 3/

words=-x renumber r
file=[3]
text=0061736d01000000 030100 0a0100 0a0100
status=16
err=repeated section 10/

words=-x renumber r
file=[3]
text=0061736d01000000 010401600000 03020100
status=15
err=uneven: 1 and 0/

words=-x -m 11 renumber r
file=[1,0]
text=0061736d01000000 0108026000006000017f 0303020001 07050101660000 0a0c02050010011a0b040041070b
status=10
err=too large: 12 over 11/

words=-x -m 11 renumber r
file=[0,0]
text=0061736d01000000 0108026000006000017f 0303020001 07050101660000 0a0c02050010011a0b040041070b
status=17
err=not an order at 1/

# Functions that nothing reaches.
words=-x prune
text=0061736d01000000 010401600000 030403000000 07050101660000 0a0e03040010020b040010000b02000b
out=0061736d010000000104016000000303020000070501016600000a0902040010010b02000b/kept 0 2/

words=-x prune
text=0061736d01000000 010401600000 030403000000 0a0e03040010020b040010000b02000b
out=0061736d010000000104016000000301000a0100/kept/

words=prune
text=BINARY
out=0061736d01000000/kept/

words=-x prune
text=0061736d01000000 03020100 0a06010400 10090b
status=18
err=dangling function 9/

words=-x prune
text=0061736d0d000100
status=8
err=There was a section that does not belong in a core wasm module/

words=-x prune
text=0061736d01000000 0a0901
status=7
err=invalid code section size/

words=-x prune
text=0061736d01000000 0305ffffffff0f
status=5
err=parse error at 8/

words=-x prune
text=0061736d01000000 030100 0a0100 0a0100
status=16
err=repeated section 10/

words=-x prune
text=0061736d01000000 010401600000 03020100
status=15
err=uneven: 1 and 0/

words=-x -m 8 prune
text=0061736d01000000 010401600000 030403000000 07050101660000 0a0e03040010020b040010000b02000b
status=10
err=too large: 9 over 8/

# One module of two.
words=-x merge r
file=0061736d01000000 01050160 00017f 03020100 07050101670000 0a0601040041070b
text=0061736d01000000 010401600000 020701016101620000 03020100 07050101660001 0a06010400 10000b
out=0061736d010000000108026000006000017f020701016101620000030302000107090201660001016700020a0b02040010000b040041070b/

words=merge r
file=BINARY
text=BINARY
out=0061736d01000000/

words=-x merge r
file=0061736d01000000 0503010001 07050101660200
text=0061736d01000000 0503010001 07050101660200
status=19
err=export clash f/

words=-x merge r
file=0061736d01000000 03020100 0a040102000b
text=0061736d01000000
status=18
err=dangling type 0 by 2/

words=-x merge r
file=0061736d01000000
text=0061736d01000000 03020100 0a040102000b
status=18
err=dangling type 0 by 1/

words=-x merge r
file=0061736d01000000 010401600000 03020100 080100 0a040102000b
text=0061736d01000000 010401600000 03020100 080100 0a040102000b
status=20
err=two starts/

# Faults of either, those of the first in front.
words=-x merge r
file=0061736d01000000
text=0061736d01000000 050100 050100
status=16
err=repeated section 5 by 1/

words=-x merge r
file=0061736d01000000 0305ffffffff0f
text=0061736d01000000 050100 050100
status=16
err=repeated section 5 by 1/

words=-x merge r
file=0061736d01000000 0305ffffffff0f
text=0061736d01000000
status=5
err=parse error at 8 by 2/

words=-x merge r
file=0061736d0d000100
text=0061736d01000000 0305ffffffff0f
status=5
err=parse error at 8 by 1/

words=-x merge r
file=0061736d01000000
text=0061736d0d000100
status=8
err=There was a section that does not belong in a core wasm module by 1/

words=-x merge r
file=0061736d0d000100
text=0061736d01000000
status=8
err=There was a section that does not belong in a core wasm module by 2/

words=-x merge r
file=0061736d01000000 0a0901
text=0061736d01000000
status=7
err=invalid code section size by 2/

words=-x merge r
file=0061736d01000000 010401600000 03020100
text=0061736d01000000
status=15
err=uneven: 1 and 0 by 2/

words=-x merge r
file=0061736d01000000
text=0061736d01000000 0c0101
status=15
err=uneven: 1 and 0 by 1/

words=-x -m 10 merge r
file=0061736d01000000 01050160 00017f 03020100 07050101670000 0a0601040041070b
text=0061736d01000000 010401600000 020701016101620000 03020100 07050101660001 0a06010400 10000b
status=10
err=too large: 11 over 10/

# With `-x` both are hexadecimal text; without it neither is.
words=-x merge r
file=00617
text=0061736d01000000
status=14
err=not hex/

words=-x merge r
file=0061736d01000000
text=00617
status=14
err=not hex/

words=merge r
file=0061736d01000000
text=BINARY
status=5
err=parse error at 0 by 2/

# How long a FILE may be hangs on what it has to say.
words=-x renumber r
file=LONG
text=0061736d01000000
status=13
err=too long/

words=-x merge r
file=LONG
text=0061736d01000000
status=5
err=parse error at 0 by 2/

words=merge t
file=BINARY
text=BINARY
status=12
err=shelf fault/"#;

/// Runs in which the calls of the outside fail one after the other, as those above.
const FAILING: &str = r#"# Each write of a byte fails in turn, and none.
calls=1 118
most=1
write_fails=K
status=4
out=K REPORT
err=write fault/

most=1
write_fails=119
out=REPORT

calls=1 157
words=-x twice r s
most=1
write_fails=K
status=4
out=K TWICE
err=write fault/

words=-x twice r s
most=1
write_fails=158
out=TWICE

calls=1 64
words=-x keep-report
most=1
write_fails=K
status=4
out=K KEPT
err=write fault/

words=-x keep-report
most=1
write_fails=65
out=KEPT

calls=1 70
words=generate 3
most=1
write_fails=K
status=4
out=K MADE
err=write fault/

words=generate 3
most=1
write_fails=71
out=MADE

# Each read of a byte, the last of which gives none.
calls=1 79
most=1
read_fails=K
status=3
err=read fault/

most=1
read_fails=80
out=REPORT

calls=1 79
words=-x twice r s
most=1
read_fails=K
status=3
err=read fault/

words=-x twice r s
most=1
read_fails=80
out=TWICE

calls=1 79
words=-x keep-report
most=1
read_fails=K
status=3
err=read fault/

words=-x keep-report
most=1
read_fails=80
out=KEPT

# Each file.
calls=1 2
words=-x twice r s
shelf_fails=K
status=12
err=shelf fault/

words=-x twice r s
shelf_fails=3
out=TWICE

# Each byte that is said.
calls=1 18
text=0061736d01000000 03020101 0303010000
most=1
err_fails=K
status=5
err=K parse error at 12/

text=0061736d01000000 03020101 0303010000
err_fails=1
status=5

calls=1 12
words=-x twice r s
shelf_fails=2
most=1
err_fails=K
status=12
err=K shelf fault/

calls=1 12
words=-x keep-report
write_fails=1
most=1
err_fails=K
status=4
err=K write fault/"#;

/// The value of the first field of this name.
fn field<'a>(lines: &'a str, name: &str) -> Option<&'a str> {
    for line in lines.lines() {
        match line.split_once('=') {
            Some((of, value)) if of == name => return Some(value),
            _ => {}
        }
    }
    None
}

/// Whether a line is a remark or one of the fields.
fn is_read(line: &str) -> bool {
    match line.split_once('=') {
        Some((name, _)) => field(USUAL, name).is_some(),
        None => line.starts_with('#'),
    }
}

/// What a case says by a field.
fn said<'a>(case: &'a str, name: &str) -> &'a str {
    match field(case, name) {
        Some(value) => value,
        None => field(USUAL, name).unwrap_or(""),
    }
}

fn list_of<T: Copy + Drop>(alloc: Global, items: &[T]) -> Result<List<T>, NoMemory> {
    let mut list = List::new(alloc);
    for item in items {
        list.push(*item)?;
    }
    Ok(list)
}

fn words_of(alloc: Global, value: &str) -> Option<Vec<String>> {
    let mut words = Vec::new(alloc);
    for word in value.split_whitespace() {
        words.push(String::from_str(alloc, word).ok()?).ok()?;
    }
    Some(words)
}

/// A byte so many times.
fn repeated(alloc: Global, byte: u8, count: u32) -> Result<List<u8>, NoMemory> {
    let mut bytes = List::new(alloc);
    for _ in 0..count {
        bytes.push(byte)?;
    }
    Ok(bytes)
}

/// The bytes of a value. `LONG` has one byte more than a renaming may have, `ENDLESS` as many digits as 1025 reads of 64 KiB
/// give.
fn bytes_of(alloc: Global, value: &str) -> Result<List<u8>, NoMemory> {
    let text = match value {
        "LONG" => return repeated(alloc, b' ', 1_048_577),
        "ENDLESS" => return repeated(alloc, b'0', 67_174_400),
        "MODULE" => MODULE,
        "REPORT" => REPORT,
        "TWICE" => TWICE,
        "KEPT" => KEPT,
        "MADE" => MADE,
        "SPACED" => SPACED,
        "USAGE" => USAGE,
        "BINARY" => BINARY,
        _ => value.as_bytes(),
    };
    let mut bytes = List::new(alloc);
    for byte in text {
        bytes.push(if *byte == b'/' { b'\n' } else { *byte })?;
    }
    Ok(bytes)
}

/// The numbers of a value, in which `K` is this one.
fn numbers_of(alloc: Global, value: &str, k: u64) -> Option<List<u64>> {
    let mut numbers = List::new(alloc);
    for word in value.split_whitespace() {
        let number = match word {
            "K" => k,
            _ => word.parse().ok()?,
        };
        numbers.push(number).ok()?;
    }
    Some(numbers)
}

/// Puts the text of a value on a shelf, by its name.
fn put_text(alloc: Global, shelf: &mut MemShelf, name: &str, value: &str) -> Option<()> {
    let text = bytes_of(alloc, value).ok()?;
    shelf.put(name, text.as_slice()).ok()
}

/// Puts both texts of a case on a shelf, the first in place of an older one.
fn put_texts(alloc: Global, shelf: &mut MemShelf, case: &str) -> Option<()> {
    shelf.put("r", b"older").ok()?;
    put_text(alloc, shelf, "r", said(case, "file"))?;
    put_text(alloc, shelf, "s", said(case, "second"))
}

fn shelf_of(alloc: Global, case: &str, k: u64) -> Option<MemShelf> {
    let fails = numbers_of(alloc, said(case, "shelf_fails"), k)?;
    let mut shelf = MemShelf::new(alloc, fails);
    put_texts(alloc, &mut shelf, case)?;
    Some(shelf)
}

fn source_of(alloc: Global, case: &str, most: usize, k: u64) -> Option<MemSource> {
    let text = bytes_of(alloc, said(case, "text")).ok()?;
    let fails = numbers_of(alloc, said(case, "read_fails"), k)?;
    Some(MemSource::new(text, most.max(1), fails))
}

/// A sink whose failures a field says.
fn sink_of(
    alloc: Global,
    case: &str,
    name: &str,
    room: usize,
    most: usize,
    k: u64,
) -> Option<MemSink> {
    let fails = numbers_of(alloc, said(case, name), k)?;
    MemSink::new(alloc, room, most.max(1), fails).ok()
}

/// Whether a sink holds the bytes of a value, or behind a `K` those before the one of this number.
fn holds(alloc: Global, sink: &MemSink, value: &str, k: u64) -> Option<bool> {
    match value.strip_prefix("K ") {
        Some(whole) => {
            let whole = bytes_of(alloc, whole).ok()?;
            let n = k.checked_sub(1)? as usize;
            Some(sink.held() == whole.as_slice().get(..n)?)
        }
        None => Some(sink.held() == bytes_of(alloc, value).ok()?.as_slice()),
    }
}

/// The status with which a case's run ends.
fn status_of(
    alloc: Global,
    case: &str,
    most: usize,
    k: u64,
    out: &mut MemSink,
    err: &mut MemSink,
) -> Option<u8> {
    let words = words_of(alloc, said(case, "words"))?;
    let mut shelf = shelf_of(alloc, case, k)?;
    let mut input = source_of(alloc, case, most, k)?;
    Some(run(alloc, words.as_slice(), &mut shelf, &mut input, out, err))
}

/// Whether a status, and what either sink holds, are as the case says.
fn is_said(
    alloc: Global,
    case: &str,
    k: u64,
    status: u8,
    out: &MemSink,
    err: &MemSink,
) -> Option<(bool, bool, bool)> {
    let out = holds(alloc, out, said(case, "out"), k)?;
    let err = holds(alloc, err, said(case, "err"), k)?;
    Some((said(case, "status").parse() == Ok(status), out, err))
}

/// Whether a case's run into these sinks ends as the case says.
fn ends_in(
    alloc: Global,
    case: &str,
    most: usize,
    k: u64,
    out: &mut MemSink,
    err: &mut MemSink,
) -> Option<(bool, bool, bool)> {
    let status = status_of(alloc, case, most, k, out, err)?;
    is_said(alloc, case, k, status, out, err)
}

/// Whether a case's run ends as the case says: its status, and what either sink holds.
fn ends(alloc: Global, case: &str, k: u64) -> Option<(bool, bool, bool)> {
    let most = said(case, "most").parse().ok()?;
    let mut out = sink_of(alloc, case, "write_fails", 1000, most, k)?;
    let mut err = sink_of(alloc, case, "err_fails", 200, most, k)?;
    ends_in(alloc, case, most, k, &mut out, &mut err)
}

/// The first and the last number for which a case is run.
fn calls_of(case: &str) -> Option<(u64, u64)> {
    let (first, last) = said(case, "calls").split_once(' ')?;
    Some((first.parse().ok()?, last.parse().ok()?))
}

/// Whether each line of a case is read.
fn try_lines(rt: &impl Abort, case: &str) {
    for line in case.lines() {
        assert!(rt; is_read(line), "{line}");
    }
}

/// Tries the runs of a case, and answers how many these were.
fn try_runs(rt: &impl Abort, alloc: Global, case: &str) -> u32 {
    let mut runs = 0u32;
    let (first, last) = calls_of(case).unwrap_or((1, 0));
    for k in first..=last {
        assert_eq!(rt;
            ends(alloc, case, k),
            Some((true, true, true)),
            "{case} at {k}"
        );
        runs = runs.saturating_add(1);
    }
    runs
}

/// Tries cases, and answers how many runs these were.
fn try_cases(rt: &impl Abort, alloc: Global, cases: &str) -> u32 {
    let mut runs = 0u32;
    for case in cases.split("\n\n") {
        try_lines(rt, case);
        runs = runs.saturating_add(try_runs(rt, alloc, case));
    }
    runs
}

#[test]
fn ends_of_runs(rt: HostRuntime) {
    let runs = try_cases(&rt, rt.alloc(), CASES);
    assert_eq!(rt; runs, 196);
}

#[test]
fn ends_of_failing_calls(rt: HostRuntime) {
    let runs = try_cases(&rt, rt.alloc(), FAILING);
    assert_eq!(rt; runs, 699);
}

fn try_sure_reads(rt: &impl Abort, bytes: List<u8>) {
    let mut source = SureSource::new(bytes, 3);
    let mut buf = [0u8; 4];
    for (room, n, held) in [
        (4, 3, b"abc\0"),
        (1, 1, b"dbc\0"),
        (4, 1, b"ebc\0"),
        (4, 0, b"ebc\0"),
    ] {
        assert_eq!(rt; source.read(&mut buf[..room.min(4)]), Ok(n));
        assert_eq!(rt; &buf, held);
    }
}

/// A write past the room is taken and not kept.
fn try_sure_writes(rt: &impl Abort, sink: &mut SureSink) {
    for (piece, n) in [(&b"abc"[..], 3), (b"def", 3), (b"gh", 2)] {
        assert_eq!(rt; sink.write(piece), Ok(n));
    }
    assert_eq!(rt; sink.held(), b"abc".as_slice());
}

#[test]
fn sure_outside(rt: HostRuntime) -> Result<(), Fail> {
    let alloc = rt.alloc();
    try_sure_reads(&rt, list_of(alloc, b"abcde")?);
    try_sure_writes(&rt, &mut SureSink::new(alloc, 5)?);
    // A text that is not there is empty.
    let mut shelf = SureShelf::new(alloc);
    let text = shelf.fetch(alloc, "a", 0).or(Err("no text"))?;
    assert!(rt; text.is_empty());
    Ok(())
}

fn try_failing_reads(rt: &impl Abort, bytes: List<u8>, fails: List<u64>) {
    let mut source = MemSource::new(bytes, 2, fails);
    let mut buf = [0u8; 4];
    for (answer, held) in [
        (Err(Failed), b"\0\0\0\0"),
        (Ok(2), b"ab\0\0"),
        (Err(Failed), b"ab\0\0"),
        (Ok(2), b"cd\0\0"),
        (Ok(1), b"ed\0\0"),
        (Ok(0), b"ed\0\0"),
    ] {
        assert_eq!(rt; source.read(&mut buf), answer);
        assert_eq!(rt; &buf, held);
    }
}

fn try_failing_writes(rt: &impl Abort, sink: &mut MemSink) {
    for (piece, answer) in [
        (&b"abcd"[..], Ok(3)),
        (b"d", Err(Failed)),
        (b"", Ok(0)),
        (b"defg", Ok(2)),
        (b"fg", Err(Failed)),
        (b"", Ok(0)),
    ] {
        assert_eq!(rt; sink.write(piece), answer);
    }
    assert_eq!(rt; sink.held(), b"abcde".as_slice());
}

#[test]
fn failing_outside(rt: HostRuntime) -> Result<(), Fail> {
    let alloc = rt.alloc();
    try_failing_reads(&rt, list_of(alloc, b"abcde")?, list_of(alloc, &[1, 3])?);
    let mut sink = MemSink::new(alloc, 5, 3, list_of(alloc, &[2])?)?;
    try_failing_writes(&rt, &mut sink);
    Ok(())
}

/// The line of the counts.
fn line_of(alloc: Global, renamers: &Renamers) -> Option<Vec<u8>> {
    lines_of(alloc, renamers).ok()
}

/// A renamer that was asked some things.
fn asked(alloc: Global, asked: &[Asked]) -> Renamer {
    let mut renamer = Renamer::new(alloc);
    for what in asked {
        renamer.note(*what);
    }
    renamer
}

/// Whether the line of the counts is this.
fn try_line(rt: &impl Abort, alloc: Global, renamers: Renamers, wanted: &[u8]) -> Result<(), Fail> {
    let line = line_of(alloc, &renamers).ok_or("no memory")?;
    assert_eq!(rt; line.as_slice(), wanted);
    Ok(())
}

#[test]
fn line_of_counts(rt: HostRuntime) -> Result<(), Fail> {
    let alloc = rt.alloc();
    let none = Renamers::Alone(Renamer::new(alloc));
    try_line(&rt, alloc, none, b"asked\n")?;
    let mut renamer = asked(
        alloc,
        &[
            Asked::Pop,
            Asked::Of(Space::Type_),
            Asked::Of(Space::Function),
            Asked::Of(Space::Type_),
            Asked::Of(Space::DataCount),
        ],
    );
    for _ in 0..10 {
        renamer.note(Asked::SectionHook);
    }
    let both = Renamers::Both(Chain::new(renamer, Renamer::new(alloc)));
    try_line(
        &rt,
        alloc,
        both,
        b"asked function 1 type 2 data_count 1 section_hook 10 pop 1\nasked\n",
    )
}

fn try_answer(
    rt: &impl Abort,
    alloc: Global,
    answer: Answer,
    status: u8,
    text: &[u8],
) -> Result<(), NoMemory> {
    let mut err = SureSink::new(alloc, 80)?;
    assert_eq!(rt; answer.status(), status);
    assert_eq!(rt; answer.say(&mut err), Ok(()));
    assert_eq!(rt; err.held(), text);
    Ok(())
}

fn try_fault(
    rt: &impl Abort,
    alloc: Global,
    fault: ReencodingFault,
    by: Option<u8>,
    status: u8,
    text: &[u8],
) -> Result<(), NoMemory> {
    try_answer(
        rt,
        alloc,
        Answer::Reencoding(TaskFault { fault, by }),
        status,
        text,
    )
}

#[test]
fn place_of_a_fault(rt: HostRuntime) -> Result<(), Fail> {
    for (at, text) in [
        (0, &b"parse error at 0\n"[..]),
        (8, b"parse error at 8\n"),
        (u64::MAX as usize, b"parse error at 18446744073709551615\n"),
    ] {
        let fault = ReencodingFault::ParseError { at };
        try_fault(&rt, rt.alloc(), fault, None, 5, text)?;
    }
    Ok(())
}

#[test]
fn ends_of_errors(rt: HostRuntime) -> Result<(), Fail> {
    let unmapped = Unmapped {
        space: Space::ComponentFunc,
        index: 7,
    };
    let name = List::from_vec(Vec::from_array(rt.alloc(), *b"f")?);
    for (fault, by, status, text) in [
        (
            ReencodingFault::Refused(Refusal::Alone(unmapped)),
            None,
            6,
            &b"refused component_func 7\n"[..],
        ),
        (
            ReencodingFault::Refused(Refusal::Both(ChainError::First(unmapped))),
            None,
            6,
            b"refused component_func 7 by 1\n",
        ),
        (
            ReencodingFault::Refused(Refusal::Both(ChainError::Second(unmapped))),
            None,
            6,
            b"refused component_func 7 by 2\n",
        ),
        (
            ReencodingFault::TooLarge {
                size: 41,
                ceiling: 40,
            },
            None,
            10,
            b"too large: 41 over 40\n",
        ),
        (
            ReencodingFault::Repeated { id: 255 },
            Some(1),
            16,
            b"repeated section 255 by 1\n",
        ),
        (
            ReencodingFault::Clash { name },
            None,
            19,
            b"export clash f\n",
        ),
    ] {
        try_fault(&rt, rt.alloc(), fault, by, status, text)?;
    }
    Ok(())
}

#[test]
fn faults_of_errors(rt: HostRuntime) -> Result<(), Fail> {
    let unmapped = Unmapped {
        space: Space::Type_,
        index: 0,
    };
    let second: ChainError<Unmapped, Unmapped> = ChainError::Second(unmapped);
    for (fault, status, text) in [
        (
            reencoding_fault(Error::UserError(unmapped), 9),
            6,
            &b"refused type 0\n"[..],
        ),
        (
            reencoding_fault(Error::UserError(second), 9),
            6,
            b"refused type 0 by 2\n",
        ),
        (
            reencoding_fault(Error::<Unmapped>::TooLarge { size: 10 }, 9),
            10,
            b"too large: 10 over 9\n",
        ),
        (
            reencoding_fault(Error::<Unmapped>::InvalidCodeSectionSize, 9),
            7,
            b"invalid code section size\n",
        ),
        (
            reencoding_fault(Error::<Unmapped>::UnexpectedNonCoreModuleSection, 9),
            8,
            b"There was a section that does not belong in a core wasm module\n",
        ),
        (
            reencoding_fault(Error::<Unmapped>::UnexpectedNonComponentSection, 9),
            9,
            b"There was a section that does not belong in a component\n",
        ),
        (
            reencoding_fault(Error::<Unmapped>::NoMemory, 9),
            1,
            b"no memory\n",
        ),
    ] {
        try_fault(&rt, rt.alloc(), fault, None, status, text)?;
    }
    Ok(())
}

#[test]
fn texts_in_memory(rt: HostRuntime) -> Result<(), Fail> {
    let alloc = rt.alloc();
    let mut shelf = SureShelf::new(alloc);
    shelf.put("a", b"one")?;
    shelf.put("b", b"two")?;
    shelf.put("a", b"three")?;
    let text = shelf.fetch(alloc, "a", 5).or(Err("no text"))?;
    assert_eq!(rt; text.as_slice(), b"three".as_slice());
    assert!(rt; shelf.fetch(alloc, "a", 4).err() == Some(ShelfFault::TooLong));
    let mut failing = MemShelf::new(alloc, list_of(alloc, &[2])?);
    failing.put("a", b"one")?;
    assert!(rt; failing.fetch(alloc, "a", 3).is_ok());
    assert!(rt; failing.fetch(alloc, "a", 3).err() == Some(ShelfFault::Failed));
    assert!(rt; failing.fetch(alloc, "b", 3).err() == Some(ShelfFault::Failed));
    Ok(())
}

fn fault_of(
    shelf: &mut FileShelf<'_, HostRuntime>,
    alloc: Global,
    name: &str,
    most: u32,
) -> Option<ShelfFault> {
    shelf.fetch(alloc, name, most).err()
}

/// Whether a file has this text.
fn has_text(shelf: &mut FileShelf<'_, HostRuntime>, alloc: Global, text: &[u8]) -> bool {
    match shelf.fetch(alloc, "long", 1_048_577) {
        Ok(whole) => whole.as_slice() == text,
        Err(_) => false,
    }
}

#[test]
fn long_file(rt: HostRuntime) -> Result<(), Fail> {
    let alloc = rt.alloc();
    let text = vec![in alloc; b'0'; 1_048_577]?;
    std::fs::write(&rt, "long", text.as_slice())?;
    let mut shelf = FileShelf::new(&rt);
    assert_eq!(rt;
        fault_of(&mut shelf, alloc, "long", 1_048_576),
        Some(ShelfFault::TooLong)
    );
    assert!(rt; has_text(&mut shelf, alloc, text.as_slice()));
    assert_eq!(rt;
        fault_of(&mut shelf, alloc, "none", 9),
        Some(ShelfFault::Failed)
    );
    std::fs::remove_file(&rt, "long")?;
    Ok(())
}

#[test]
fn renamings_of_texts(rt: HostRuntime) -> Result<(), Fail> {
    let alloc = rt.alloc();
    let text = b"{\"tag\":{\"10\":3,\"9\":4294967295,\"0\":7},\"strict\":true}";
    let mut renamer = renaming_of(alloc, text).or(Err("no renaming"))?;
    for (from, to) in [(10, Some(3)), (9, Some(u32::MAX)), (0, Some(7)), (1, None)] {
        assert_eq!(rt; renamer.ask(Space::Tag, from).ok(), to);
    }
    for text in [&b"{"[..], b"\xff"] {
        assert!(rt; renaming_of(alloc, text).err() == Some(RenamingFault::Bad));
    }
    Ok(())
}
