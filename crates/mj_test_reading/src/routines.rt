// Routines: each front of one, and each with one byte replaced, is read or refused by its name.

use crate::fronts::{Form, wrong_code, wrong_front};
use mj_rou::read;
use std::test::Fail;

// A routine with every construct: labels and formals, comments, levels; each command in each of its forms; each operator, function and variable. One line ends
// with byte 13 before byte 10, and the last has no end.
const ROUTINE: &str = "A(X,%Y) ;c
007 S X=1,(Y(1,-2),$P(^Z,\",\",1,2))=\"a\"\"b\"_X K  K X(1),(A,B),^Z N  NEW A,(B,%C)
\t. . I X,Y=1 E  Q:X=Y  D  DO A,5^R(1,,X):Y,^R():1
 F  G A:X,5^R F I=1,1:2,1:2:-3 H 1 H\r
 M ^X(1)=Y L  L A,+^B(1):5,-(A,^B):T J A^R(1,,X)::5,B
;

 O X,\"F\"::5 U \"F\" R \"a\",!#?3,X:5,*^Y(1) C X W 1,!!,#!?5,?X,*65 B  B:X  TC:X  TRE  TRO
 TS  TS () TS X:S TS (A,B):(SERIAL) TSTART *:s
 W -+'1+2-3*4\\5#6/7_8=9<1>2[3]4]]5&6!7'=1'<2'>3'[4']5']]6'&7'!8,(X),$I,$J,$T,$TL,$TR,$X,$Y
 W $A(1,2),$C(1,2),$D(X),$E(1,2,3),$F(1,2,3),$G(X,1),$J(1,2),$L(1,2),$NA(X(1)),$O(X(1),-1)
 W $P(1,2,3,4),$Q(X),$QL(1),$QS(1,2),$RE(1),$S(1:2,3:4),$TR(1,2,3)";

#[test]
fn each_front_of_a_routine_is_read_or_refused(rt: HostRuntime) -> Result<(), Fail> {
    let bytes = ROUTINE.as_bytes();
    assert!(rt; bytes.len() >= 200);
    assert!(rt; read(rt.alloc(), b"R", bytes).is_ok());
    assert_eq!(rt; wrong_front(rt.alloc(), Form::Routine, bytes)?, None);
    Ok(())
}

// The place and the code of the first that is neither, in part 1 of 6.
#[test]
fn a_routine_with_one_byte_replaced_is_read_or_refused_1(rt: HostRuntime) -> Result<(), Fail> {
    assert_eq!(rt; wrong_code(rt.alloc(), Form::Routine, ROUTINE, 0, 6)?, None);
    Ok(())
}

// The place and the code of the first that is neither, in part 2 of 6.
#[test]
fn a_routine_with_one_byte_replaced_is_read_or_refused_2(rt: HostRuntime) -> Result<(), Fail> {
    assert_eq!(rt; wrong_code(rt.alloc(), Form::Routine, ROUTINE, 1, 6)?, None);
    Ok(())
}

// The place and the code of the first that is neither, in part 3 of 6.
#[test]
fn a_routine_with_one_byte_replaced_is_read_or_refused_3(rt: HostRuntime) -> Result<(), Fail> {
    assert_eq!(rt; wrong_code(rt.alloc(), Form::Routine, ROUTINE, 2, 6)?, None);
    Ok(())
}

// The place and the code of the first that is neither, in part 4 of 6.
#[test]
fn a_routine_with_one_byte_replaced_is_read_or_refused_4(rt: HostRuntime) -> Result<(), Fail> {
    assert_eq!(rt; wrong_code(rt.alloc(), Form::Routine, ROUTINE, 3, 6)?, None);
    Ok(())
}

// The place and the code of the first that is neither, in part 5 of 6.
#[test]
fn a_routine_with_one_byte_replaced_is_read_or_refused_5(rt: HostRuntime) -> Result<(), Fail> {
    assert_eq!(rt; wrong_code(rt.alloc(), Form::Routine, ROUTINE, 4, 6)?, None);
    Ok(())
}

// The place and the code of the first that is neither, in part 6 of 6.
#[test]
fn a_routine_with_one_byte_replaced_is_read_or_refused_6(rt: HostRuntime) -> Result<(), Fail> {
    assert_eq!(rt; wrong_code(rt.alloc(), Form::Routine, ROUTINE, 5, 6)?, None);
    Ok(())
}
