//! What is true of the language's names. The functions do nothing: their contracts are the laws.

ghost use Rattle.evm_asm_lexer.specs.Characters.{CharactersAreNamed};
ghost use Rattle.evm_asm_lexer.specs.Names.{NoNameStandsTwice};

/// The codes by which the definitions name characters are those of the characters.
pub fn characters_are_named()
    ensures { CharactersAreNamed }
{}

/// No two registers and no two mnemonics, pseudo instructions or directives have the same name.
pub fn no_name_stands_twice()
    ensures { NoNameStandsTwice }
{}
