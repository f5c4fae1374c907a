// What each refusal is printed as, by rows.

use crate::tables::{Reading, judge};
use mj_rou::read;
use std::alloc::{AllocError, Global};
use std::test::Fail;

#[test]
fn control_is_read_or_refused(rt: HostRuntime) -> Result<(), Fail> {
    let rows = " I 1,X=2 Q => ok
 I  W 1 => ok
 I:1  Q => L2 R:1:3
 E  W 1 => ok
 E W 1 => L2 R:1:4
 else => ok
 D => ok
 do  W 1 => ok
 D W 1 => L2 R:1:6
 D:X A^R(1,,X):Y,^R(),5(,) => ok
 D A(1 => L2 R:1:7
 D A(1)) => L2 R:1:8
 D A:X(1)(2) => L2 R:1:10
 D (1) => L2 R:1:4
 G A^R:X,^R,5 => ok
 G => L2 R:1:3
 G A() => L2 R:1:5
 G:X A:$T=1 => ok
 N => ok
 N A,(B,C),D W A => ok
 N () => L2 R:1:5
 N A(1) => L2 R:1:5
 Q:$test'=1  W $T => ok
 Q X => ok
";
    judge(&rt, Reading::File, rows)
}

#[test]
fn values_that_are_left_out_are_named(rt: HostRuntime) -> Result<(), Fail> {
    let rows = " SET @X=1 => L7 R:1:6 indirection
 W @X => L7 R:1:4 indirection
@A W 1 => L7 R:1:1 indirection
 D @A => L7 R:1:4 indirection
 D A^@X => L7 R:1:6 indirection
 K (A,@B) => L7 R:1:7 indirection
 N @X => L7 R:1:4 indirection
 W:@X 1 => L7 R:1:4 indirection
 W X@Y => L2 R:1:5
 HALT @X => L2 R:1:7
 H @X => L7 R:1:4 indirection
 W 1 @X => L2 R:1:6
 W $@X => L2 R:1:4
 W 1.5 => L7 R:1:5 fraction
 W .5 => L7 R:1:4 fraction
 W 1. => L7 R:1:5 fraction
 W 1.A => L7 R:1:5 fraction
 D A(.5) => L7 R:1:6 fraction
1.5 W 1 => L7 R:1:2 fraction
 D 1.5 => L7 R:1:5 fraction
 W .X => L2 R:1:4
 S .5=1 => L2 R:1:4
 W 1E5 => L7 R:1:5 exponent
 W 1EX => L7 R:1:5 exponent
1E W 1 => L7 R:1:2 exponent
 W 1e5 => L2 R:1:5
 W 1F5 => L2 R:1:5
 W 2**3 => L7 R:1:6 power
 W **3 => L7 R:1:5 power
 I X?1N => L7 R:1:5 pattern
 W X'?1N => L7 R:1:5 pattern
 W X'? => L7 R:1:5 pattern
 W X=1'?1N => L7 R:1:7 pattern
 W $L(X'?1N) => L7 R:1:8 pattern
 S X=Y'?1N => L7 R:1:7 pattern
 W 1?1N => L7 R:1:5 pattern
 W ?1N => L2 R:1:6
 W !?1N => L2 R:1:7
 W '?1N => L2 R:1:4
 W ''?1N => L2 R:1:5
 W X''?1N => L2 R:1:5
 W X'=?1N => L2 R:1:7
 S X'?1N=1 => L2 R:1:5
 Q '?1N => L2 R:1:4
 Q 'X => ok
 I X]?1 => L2 R:1:6
 W X'Y => L2 R:1:5
 W ^(1) => L7 R:1:5 naked
 D ^(1) => L7 R:1:5 naked
 D (1) => L2 R:1:4
 W ^[\"a\"]X => L7 R:1:5 environment
 W ^|\"a\"|X => L7 R:1:5 environment
 W |1 => L2 R:1:4
 W ^$J => L7 R:1:5 structured
 W ^$J(1) => L7 R:1:5 structured
 W ^$5 => L7 R:1:5 structured
";
    judge(&rt, Reading::File, rows)
}

#[test]
fn calls_that_are_left_out_are_named(rt: HostRuntime) -> Result<(), Fail> {
    let rows = " D A(.X) => L7 R:1:6 by reference
 D A(1,.%X) => L7 R:1:8 by reference
 D A(-.X) => L2 R:1:7
 D A(.) => L2 R:1:6
 W $L(.X) => L2 R:1:7
 D A+1 => L7 R:1:5 entry offset
 G 5+1^R => L7 R:1:5 entry offset
 D +1 => L2 R:1:4
 D A^R+1 => L2 R:1:7
 W /X => L7 R:1:4 mnemonic space
 W 1,/X => L7 R:1:6 mnemonic space
 W !,/X => L7 R:1:6 mnemonic space
 W !/X => L2 R:1:5
 S X=/Y => L2 R:1:6
 S $E(X,1)=2 => L7 R:1:4 set extract
 S (X,$extract(Y,1))=2 => L7 R:1:7 set extract
 S $L(X)=2 => L2 R:1:4
 M $E(X)=Y => L2 R:1:4
 W $J(1,2,3) => L7 R:1:10 justify decimals
 W $J(X(1,2),$L(1,2),3) => L7 R:1:21 justify decimals
 W $J(1,,3) => L7 R:1:9 justify decimals
 W $J(,2) => L2 R:1:7
 W $L(1,2,3) => L2 R:1:10
 W $Q(X,-1) => L7 R:1:8 query backward
 W $QUERY(^X(1,2),-1) => L7 R:1:18 query backward
 W $NA(X,1) => L7 R:1:9 name depth
 W $D(X,1) => L2 R:1:8
 W $O(X) => L7 R:1:8 order names
 W $O(^X,1) => L7 R:1:9 order names
 W $O(X_1) => L2 R:1:8
 W $O(X(1),1,2) => L2 R:1:13
 W $ZX(1) => L7 R:1:4 function
 W $X(1) => L7 R:1:4 function
 W $T(1) => L7 R:1:4 function
 W $H => L7 R:1:4 variable
 W $L => L7 R:1:4 variable
 S $H=1 => L7 R:1:4 variable
 W X$H => L7 R:1:5 variable
 $H => L7 R:1:2 variable
 S $X=1 => L2 R:1:4
 W $ => L2 R:1:4
 XECUTE \"x\" => L7 R:1:2 command
 S X=1 Y=2 => L7 R:1:8 command
 W 1 ZW => L7 R:1:6 command
 HALT X => L2 R:1:7
 H X => ok
 tstart () => ok
 W 1J 2 => L2 R:1:5
";
    judge(&rt, Reading::File, rows)
}

#[test]
fn values_of_quit_are_read(rt: HostRuntime) -> Result<(), Fail> {
    let rows = " W $$A => ok
 W $$^R => ok
 SET $$A=1 => L2 R:1:6
 D $$A => L2 R:1:4
 W $$A+ => L2 R:1:8
 W $$^(1) => L7 R:1:7 naked
 W $$^[\"E\"]R => L7 R:1:7 environment
 W $$A?1N => L7 R:1:7 pattern
 W $$$A => L7 R:1:6 variable
 W $$A (1) => L2 R:1:8
 W $$A^R ^X => L2 R:1:10
 W ^$$A => L7 R:1:5 structured
 W $$1E5 => L7 R:1:7 exponent
 W $$1.5 => L7 R:1:7 fraction
 W $$ABCDEFGHIJKLMNOPQRSTUVWXYZABCDE => ok
 W $$ABCDEFGHIJKLMNOPQRSTUVWXYZABCDEF => L5 R:1
 Q 1 => ok
 Q SET X=1 => L7 R:1:8 command
 W 1 Q:X @Y => L7 R:1:10 indirection
 Q $H => L7 R:1:4 variable
 Q $$A => ok
 Q .5 => L7 R:1:4 fraction
 Q ^X => ok
 Q -X => ok
 Q \"a\" => ok
 Q @X => L7 R:1:4 indirection
 Q .X => L2 R:1:4
 Q $ => L2 R:1:4
 Q ) => L2 R:1:4
 Q = => L2 R:1:4
 Q \"a => L2 R:1:4
 Q  X => L7 R:1:5 command
 Q  1 => L2 R:1:5
 Q W 1 Q 1 => L2 R:1:6
 HALT 1 => L2 R:1:7
A W 1~A W @X => L3 R:2
 W @X S X=ABCDEFGHIJKLMNOPQRSTUVWXYZABCDEF => L7 R:1:4 indirection
 W $ABCDEFGHIJKLMNOPQRSTUVWXYZABCDEF => L5 R:1
 W 1EABCDEFGHIJKLMNOPQRSTUVWXYZABCDE => L5 R:1
";
    judge(&rt, Reading::File, rows)
}

#[test]
fn loops_are_read_or_refused(rt: HostRuntime) -> Result<(), Fail> {
    let rows = " FOR => ok
 f  W 1 => ok
 For I=1:1:3,\"x\",5:1 W I => ok
 F A(^B,J)=1:1:2;c => ok
 F I=1,J=2 => ok
 F:1  Q => L2 R:1:3
 F ^I=1 => L2 R:1:4
 F (I)=1 => L2 R:1:4
 F I => L2 R:1:5
 F W 1 => L2 R:1:5
 F I= => L2 R:1:6
 F I=,1 => L2 R:1:6
 F I=1, => L2 R:1:8
 F I=1:,2 => L2 R:1:8
 F I=1:1: => L2 R:1:10
 F I=1:1:3:4 => L2 R:1:11
";
    judge(&rt, Reading::File, rows)
}

#[test]
fn formals_and_dots_are_read_or_refused(rt: HostRuntime) -> Result<(), Fail> {
    let rows = "A(X,Y) => ok
A(X) S X=1 => ok
1(%X,Y1)\tQ ;c => ok
A() => ok
A() ;c => ok
A(X,X) => L2 R:1:5
A(X,Y,X) W ( => L2 R:1:7
A(X,x,XX) => ok
A(A) => ok
A( => L2 R:1:3
A(X => L2 R:1:4
A(,X) => L2 R:1:3
A(X,) => L2 R:1:5
A(X,,Y) => L2 R:1:5
A(1) => L2 R:1:3
A(X(1)) => L2 R:1:4
A( X) => L2 R:1:3
A(X ,Y) => L2 R:1:4
A (X) => L2 R:1:3
A(X)(Y) => L2 R:1:5
A(X)W 1 => L2 R:1:5
A(X);c => L2 R:1:5
(X) => L2 R:1:1
A(X) Q~A Q => L3 R:2
A(ABCDEFGHIJKLMNOPQRSTUVWXYZABCDE) Q => ok
A(X,ABCDEFGHIJKLMNOPQRSTUVWXYZABCDEF => L5 R:1
A(X,X,ABCDEFGHIJKLMNOPQRSTUVWXYZABCDEF => L2 R:1:5
 .S X=1 => ok
A . . W 1 => ok
A(X) ..\tW 1 => ok
A\t. .. D  W 1 ;c => ok
 . => ok
 . .  => ok
 .;c => ok
. => L2 R:1:1
A. => L2 R:1:2
A(X). => L2 R:1:5
 .A => L7 R:1:3 command
 .W 1 . => L2 R:1:7
 .( => L2 R:1:3
 ;. => ok
";
    judge(&rt, Reading::File, rows)
}

// The level of the first line, and how many formals it has.
#[test]
fn levels_and_formals_are_kept(rt: HostRuntime) -> Result<(), Fail> {
    let rows = " W 1 => 1 0
A => 1 0
A() => 1 0
A(X) => 1 1
A(X,Y,Z)  W 1 => 1 3
 .W 1 => 2 0
 . . .W 1 => 4 0
 .. ;c => 3 0
A(X) . => 2 1
 ;c => 1 0
 ;. => 1 0
   => 1 0
";
    judge(&rt, Reading::Head, rows)
}

#[test]
fn lines_are_read_or_refused(rt: HostRuntime) -> Result<(), Fail> {
    let rows = " => ok
 SET ^A=2+3*4 WRITE ^A,! HALT => ok
 SET X=1,X(2)=X+1 WRITE X(2)_X,Y => ok
 WRITE \"abc => L2 R:1:8
 WRITE \"abc\"\"\" => ok
 SET  X=1 => L2 R:1:6
 W ^5 => L2 R:1:5
 W 1 +2 => L2 R:1:6
 W 1,\tH => L2 R:1:6
 W X(1 => L2 R:1:7
 W => L2 R:1:3
 W  => L2 R:1:4
 W 1W 2 => L2 R:1:5
 W 1;c => ok
 H;c => L2 R:1:3
 H ;c => ok
 H W 1 => L2 R:1:6
 H  W 1 => ok
 H 5 => ok
 HANG 5 => ok
 HALT 5 => L2 R:1:7
 h:X=1  w:)X 1 => L2 R:1:11
 h:X=1  w:X 1 => ok
A => ok
A;c => L2 R:1:2
A ;c => ok
;c => ok
 \t  => ok
A W 1~B W 1~A W ( => L3 R:3
1 W 1\r~01 W 1\r~ => ok
W W 1~ W 2~ W )~ W ) => L2 R:3:4
 W 1\r => L2 R:1:5
 W 999999999999999999,0001000000000000000000 => L2 R:1:23
 W !!,-+X,(1)_\"a\" => ok
 W !1 => L2 R:1:5
 S X=ABCDEFGHIJKLMNOPQRSTUVWXYZABCDE => ok
 S X=ABCDEFGHIJKLMNOPQRSTUVWXYZABCDEF => L5 R:1
A W 1~A S X=1ABCDEFGHIJKLMNOPQRSTUVWXYZABCDEF => L5 R:2
";
    judge(&rt, Reading::File, rows)
}

#[test]
fn limits_are_kept(rt: HostRuntime) -> Result<(), Fail> {
    let rows = ";<c*8191>\r~ => ok
;<c*8192>\r~ => L5 R:1
<~*10000> => ok
<~*10001> => L5 R:10001
 WRITE <(*64>1 => L2 R:1:73
 WRITE <(*65>1 => L6 R:1:72
 WRITE <-*64>1 => ok
 WRITE <-*65>1 => L6 R:1:72
 W X(1<,1*30>) => ok
 W X(1<,1*31>) => L5 R:1
 W X(1<,1*30>,, => L5 R:1
 W X(1<,1*29>,, => L5 R:1
 W X(1<,1*28>,, => L2 R:1:64
 W X(1<,1*29>,$$, => L5 R:1
 W X(1<,1*28>,$$, => L2 R:1:66
 W X(1<,1*29>,$$A^, => L5 R:1
 WRITE <$$A(*64>1 => L2 R:1:265
 WRITE <$$A(*65>1 => L6 R:1:267
 WRITE <(*65>ABCDEFGHIJKLMNOPQRSTUVWXYZABCDEF => L5 R:1
 WRITE <(*65>1,ABCDEFGHIJKLMNOPQRSTUVWXYZABCDEF => L6 R:1:72
 WRITE <-*65>1 S X(1)=ABCDEFGHIJKLMNOPQRSTUVWXYZABCDEF => L5 R:1
 W 1,<-*65>X(1)*2  S ^( => L6 R:1:70
";
    judge(&rt, Reading::Repeated, rows)
}

#[test]
fn names_are_words(rt: HostRuntime) -> Result<(), Fail> {
    assert!(rt; refusal_of(rt.alloc(), b"%A1", b"")?.is_none());
    for name in [&b"1A"[..], b"", b"A%", b"ABCDEFGHIJKLMNOPQRSTUVWXYZABCDEF"] {
        let given = refusal_of(rt.alloc(), name, b" W (")?;
        assert_eq!(rt; given.as_deref(), Some("L1"));
    }
    Ok(())
}

// How a file of this name and these bytes is refused, if it is.
fn refusal_of(alloc: Global, name: &[u8], bytes: &[u8]) -> Result<Option<String>, AllocError> {
    match read(alloc, name, bytes) {
        Ok(routine) => {
            drop(routine);
            Ok(None)
        }
        Err(refusal) => {
            let text = format!(in alloc; "{refusal}");
            drop(refusal);
            Ok(Some(text?))
        }
    }
}
