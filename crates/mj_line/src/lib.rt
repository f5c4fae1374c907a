// Lines as they are spelled, and a machine that reads their tokens from the left: definitions and laws alone, with no code.
//
// `specs/Forms.antt` is a table of the arguments of commands: the places in them, and what goes on at each. With
// `specs/Sentences.antt`, which has the spelling of a line by that table, and `specs/Machine.antt`, the machine, another command
// is some rows of the table. `proofs/` shows once for all tables that the machine reads exactly what is spelled, is stuck
// exactly where nothing is spelled so, and meets a level too many or a list too long where the grammar says.
#![tactic(auto)]
