// The grammar of docs/FORMATS.md, by rows: a line or two for each production, one for each refusal that a line may have, and one for each
// construct that is left out by a name.

use crate::tables::{Reading, judge};
use std::test::Fail;

#[test]
fn lines_and_their_first_commands_are_as_the_grammar_says(rt: HostRuntime) -> Result<(), Fail> {
    let rows = " \t => ok
;any ( => ok
A => ok
007 => ok
A(X,%Y) => ok
A() ;c => ok
A\t. .W 1 => ok
A(X,X) => L2 R:1:5
A;c => L2 R:1:2
 W 1  W 2 ;c => ok
 W:X 1 Q:X => ok
 Q  Q => ok
 Q W 1 => L2 R:1:6
 Q W W 1 => ok
 Q:X 1,2 => L2 R:1:7
 W $$A,$$^R,$$A^R,$$01(1,,X)+1 => ok
 W $$A()_$$A(,) => ok
 W $$ => L2 R:1:6
 W $$+1 => L2 R:1:6
 W $$A^ => L2 R:1:8
 W $$A(1 => L2 R:1:9
 W $$A(1)) => L2 R:1:10
 W  1 => L2 R:1:4
 W => L2 R:1:3
 I:1 1 => L2 R:1:3
 E:1 => L2 R:1:3
 F:1 => L2 R:1:3
 S X=1,(Y,$PIECE(Z,1,2,3))=2,$p(^X(1),1)=3 => ok
 S => L2 R:1:3
 S ()=1 => L2 R:1:5
 S $P(X)=1 => L2 R:1:8
 S $P(X,1,2,3,4)=1 => L2 R:1:14
 W 1,!!,X => ok
 W !X => L2 R:1:5
 W #!?5,*65,?X,# => ok
 W ? => L2 R:1:5
 W !,?5#6,!?7_8 => ok
 W ** => L7 R:1:5 power
 W $IO,$i,$X,$x,$Y => ok
 O X,Y::5 W 1 => ok
 OPEN => L2 R:1:6
 O X:: => L2 R:1:7
 O X: => L2 R:1:6
 U X,\"F\" W 1 => ok
 USE => L2 R:1:5
 C X,\"F\" W 1 => ok
 CLOSE => L2 R:1:7
 R:X \"a\",!#?3,X:5,*^Y(1),^Z W 1 => ok
 READ => L2 R:1:6
 R 5 => L2 R:1:4
 R \"a\"_X => L2 R:1:7
 R X_1 => L2 R:1:5
 R X:1:2 => L2 R:1:7
 R *5 => L2 R:1:5
 W 1, => L2 R:1:6
 HALT => ok
 HALT 1 => L2 R:1:7
 HANG 1,X => ok
 HANG => L2 R:1:6
 HANG ;c => L2 R:1:7
 h => ok
 H ;c => ok
 H  W 1 => ok
 H:X 1,2 W 1 => ok
 H 1, => L2 R:1:6
 H ) => L2 R:1:4
 LOCK => ok
 L  W 1 => ok
 L:X X,+^X(1):5,-(A,^B(2)):T W 1 => ok
 L () => L2 R:1:5
 L (A => L2 R:1:6
 L +-A => L2 R:1:5
 L A::5 => L2 R:1:6
 L A: => L2 R:1:6
 L (A,+B) => L2 R:1:7
 L 5 => L2 R:1:4
 K => ok
 K X(1),(A,B),^Y => ok
 K () => L2 R:1:5
 K (A(1)) => L2 R:1:6
 M X=Y,^X(1)=Z => ok
 M => L2 R:1:3
 M X => L2 R:1:5
";
    judge(&rt, Reading::File, rows)
}

#[test]
fn control_and_expressions_are_as_the_grammar_says(rt: HostRuntime) -> Result<(), Fail> {
    let rows = " I => ok
 IF 1,X => ok
 ELSE => ok
 QUIT => ok
 F => ok
 FOR X=1,1:2,1:2:3 => ok
 F ^X=1 => L2 R:1:4
 F X=1:2:3:4 => L2 R:1:11
 D => ok
 DO A,5^R(1,,2):X,^R():1 => ok
 D A( => L2 R:1:6
 J => L2 R:1:3
 JOB A,5^R(1,,2)::X,^R()::1 => ok
 j:X A W 1 => ok
 J  => L2 R:1:4
 J A: => L2 R:1:6
 J A:: => L2 R:1:7
 J A::1:2 => L2 R:1:8
 J A( => L2 R:1:6
 GOTO A,A^R:X,^R => ok
 G => L2 R:1:3
 G A(1) => L2 R:1:5
 N => ok
 NEW A,(B,C) => ok
 N () => L2 R:1:5
 W 1+2-3*4\\5#6/7_8 => ok
 W 1=2<3>4[5]6]]7&8!9 => ok
 W 1'=2'<3'>4'[5']6']]7'&8'!9 => ok
 W +-'1 => ok
 W \"a\"\"b\",X,^X(1,2),(1) => ok
 W $TEST,$T,$JOB,$j => ok
 W $J(1,2) => ok
 W $L(1),$A(1,2) => ok
 W $D(X),$G(X,1),$O(X(1)) => ok
 W $S(1:2,3:4) => ok
 W 1+ => L2 R:1:6
 W \"a => L2 R:1:4
 W 999999999999999999 => ok
 W 1000000000000000000 => L2 R:1:4
";
    judge(&rt, Reading::File, rows)
}

#[test]
fn transactions_are_as_the_grammar_says(rt: HostRuntime) -> Result<(), Fail> {
    let rows = " TSTART => ok
 TS  W 1 => ok
 ts ;c => ok
 TS:X  W 1 => ok
 TSTART X W 1 => ok
 TS:X (A,%B) W 1 => ok
 TS () => ok
 TS * => ok
 TSTART ():SERIAL => ok
 TS *:(s) W 1 => ok
 TS X:S => ok
 TS (A,B):(Serial) ;c => ok
 TSTART (),() => L2 R:1:11
 TS A,B => L2 R:1:6
 TS (A,) => L2 R:1:8
 TS (,A) => L2 R:1:6
 TS (A => L2 R:1:7
 TS (A(1)) => L2 R:1:7
 TS (*) => L2 R:1:6
 TS X(1) => L2 R:1:6
 TS ^X => L2 R:1:5
 TS 1 => L2 R:1:5
 TS *: => L2 R:1:7
 TS *:X => L2 R:1:7
 TS *:SERIALS => L2 R:1:7
 TS *:(S => L2 R:1:9
 TS *:(S:S) => L2 R:1:9
 TS *:() => L2 R:1:8
 TS *:S:S => L2 R:1:8
 TS *:@X => L2 R:1:7
 TC => ok
 TCOMMIT:X  TC => ok
 TCOMMIT X => L2 R:1:10
 TRE => ok
 TRESTART:X  W 1 => ok
 TRESTART 1 => L2 R:1:11
 TRO => ok
 TROLLBACK:X ;c => ok
 TRO 1 => L2 R:1:6
 B => ok
 BREAK:X  W 1 => ok
 BREAK \"x\" => L2 R:1:8
 W $TL,$tlevel,$TR,$TRESTART => ok
";
    judge(&rt, Reading::File, rows)
}

#[test]
fn each_refusal_is_given(rt: HostRuntime) -> Result<(), Fail> {
    let rows = "A Q~A Q => L3 R:2
 W ABCDEFGHIJKLMNOPQRSTUVWXYZABCDEF => L5 R:1
 W X(1,2,3,4,5,6,7,8,9,10,11,12,13,14,15,16,17,18,19,20,21,22,23,24,25,26,27,28,29,30,31,32) => L5 R:1
 W ) S ABCDEFGHIJKLMNOPQRSTUVWXYZABCDEF=1 => L2 R:1:4
 W -----------------------------------------------------------------1 => L6 R:1:68
 SET @X=1 => L7 R:1:6 indirection
 WRITE 1.5 => L7 R:1:9 fraction
 WRITE 1E5 => L7 R:1:9 exponent
 WRITE 2**3 => L7 R:1:10 power
 IF X?1N => L7 R:1:6 pattern
 WRITE ^(1) => L7 R:1:9 naked
 WRITE ^[\"E\"]X => L7 R:1:9 environment
 WRITE ^$JOB => L7 R:1:9 structured
 DO A(.X) => L7 R:1:7 by reference
 JOB A(.X) => L7 R:1:8 by reference
 DO A+1 => L7 R:1:6 entry offset
 JOB A+1 => L7 R:1:7 entry offset
 JOB A:X => L7 R:1:8 process parameters
 JOB A(1):(X) => L7 R:1:11 process parameters
 J ^R: W 1 => L7 R:1:7 process parameters
 J A:;c => L7 R:1:6 process parameters
 J A:$H => L7 R:1:6 process parameters
 J A:@X => L7 R:1:6 process parameters
 D A:@X => L7 R:1:6 indirection
 LOCK @X => L7 R:1:7 indirection
 L +@X => L7 R:1:5 indirection
 HANG @X => L7 R:1:7 indirection
 HANG .5 => L7 R:1:7 fraction
 WRITE /X => L7 R:1:8 mnemonic space
 READ /X => L7 R:1:7 mnemonic space
 R X,/X => L7 R:1:6 mnemonic space
 O X::: => L7 R:1:7 mnemonic space
 O X::1: => L7 R:1:8 mnemonic space
 READ X#5 => L7 R:1:8 read length
 R *X(1)#5 => L7 R:1:9 read length
 R \"a\"#5 => L2 R:1:7
 R #5 => L2 R:1:5
 USE X:1 => L7 R:1:7 device parameters
 CLOSE X::1 => L7 R:1:9 device parameters
 O X:1 => L7 R:1:6 device parameters
 O X:;c => L7 R:1:6 device parameters
 R @X => L7 R:1:4 indirection
 O @X => L7 R:1:4 indirection
 R $H => L7 R:1:4 variable
 R $L(X) => L2 R:1:4
 SET $EXTRACT(X,1)=2 => L7 R:1:6 set extract
 WRITE $JUSTIFY(1,2,3) => L7 R:1:20 justify decimals
 WRITE $QUERY(X,-1) => L7 R:1:16 query backward
 WRITE $NAME(X,1) => L7 R:1:15 name depth
 WRITE $ORDER(X) => L7 R:1:16 order names
 WRITE $TEXT(A) => L7 R:1:8 function
 WRITE $HOROLOG => L7 R:1:8 variable
 XECUTE \"X\" => L7 R:1:2 command
 WRITE $$@A => L7 R:1:10 indirection
 WRITE $$A^@R => L7 R:1:12 indirection
 WRITE $$A(.X) => L7 R:1:12 by reference
 TSTART ():T=\"x\" => L7 R:1:12 transaction id
 TS X:(TRANSACTIONID=X) => L7 R:1:8 transaction id
 TSTART *:ts => L7 R:1:11 transaction id
 TSTART :S => L7 R:1:9 bare serial
 TS :X W 1 => L7 R:1:5 bare serial
 TSTART (A,@X) => L7 R:1:12 indirection
 TS @X => L7 R:1:5 indirection
 TS $H => L7 R:1:5 variable
 TREST => L7 R:1:2 command
 BR => L7 R:1:2 command
";
    judge(&rt, Reading::File, rows)
}
