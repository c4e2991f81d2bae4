// Which alternative a token of each kind begins. Each table is proved to hold its definition's values (`tools/alternatives`
// prints it).
use crate::forms::{DeclarationForm, ExpressionForm, StatementForm, TypeForm};

// The kinds of tokens, and 0, which is none.
pub(crate) const SIZE: usize = 43;

pub(crate) const TYPE: [Option<TypeForm>; SIZE] = [
    None, // not a kind
    Some(TypeForm::Named), // ident
    Some(TypeForm::Base), // keyword
    Some(TypeForm::Named), // boolean
    None, // sizeof
    None, // int
    None, // float
    None, // string
    None, // dollar
    None, // ampersand
    None, // at
    None, // percent
    None, // colon
    None, // bar
    None, // equal
    None, // semicolon
    None, // tilde
    None, // left_brace
    None, // right_brace
    Some(TypeForm::Parenthesized), // left_paren
    None, // right_paren
    Some(TypeForm::Slice), // left_bracket
    None, // right_bracket
    Some(TypeForm::Result), // bang
    None, // caret
    None, // backslash
    Some(TypeForm::Optional), // question
    None, // dot
    None, // hash
    Some(TypeForm::Pointer), // star
    None, // plus
    None, // minus
    None, // slash
    None, // less
    None, // greater
    None, // equal_equal
    None, // bang_equal
    None, // less_equal
    None, // greater_equal
    None, // less_less
    None, // greater_greater
    None, // question_question
    None, // arrow
];

pub(crate) const EXPRESSION: [Option<ExpressionForm>; SIZE] = [
    None, // not a kind
    Some(ExpressionForm::Name), // ident
    None, // keyword
    Some(ExpressionForm::Literal), // boolean
    Some(ExpressionForm::Sizeof), // sizeof
    Some(ExpressionForm::Literal), // int
    Some(ExpressionForm::Literal), // float
    Some(ExpressionForm::Literal), // string
    None, // dollar
    Some(ExpressionForm::Binary), // ampersand
    Some(ExpressionForm::Aggregate), // at
    Some(ExpressionForm::Binary), // percent
    None, // colon
    Some(ExpressionForm::Binary), // bar
    None, // equal
    None, // semicolon
    Some(ExpressionForm::Complement), // tilde
    Some(ExpressionForm::Block), // left_brace
    None, // right_brace
    Some(ExpressionForm::Call), // left_paren
    None, // right_paren
    Some(ExpressionForm::Slice), // left_bracket
    None, // right_bracket
    Some(ExpressionForm::Not), // bang
    Some(ExpressionForm::Return), // caret
    Some(ExpressionForm::Try), // backslash
    Some(ExpressionForm::Conditional), // question
    Some(ExpressionForm::Member), // dot
    Some(ExpressionForm::Cast), // hash
    Some(ExpressionForm::Binary), // star
    Some(ExpressionForm::Binary), // plus
    Some(ExpressionForm::Binary), // minus
    Some(ExpressionForm::Binary), // slash
    Some(ExpressionForm::Binary), // less
    Some(ExpressionForm::Binary), // greater
    Some(ExpressionForm::Binary), // equal_equal
    Some(ExpressionForm::Binary), // bang_equal
    Some(ExpressionForm::Binary), // less_equal
    Some(ExpressionForm::Binary), // greater_equal
    Some(ExpressionForm::Binary), // less_less
    Some(ExpressionForm::Binary), // greater_greater
    Some(ExpressionForm::Match), // question_question
    None, // arrow
];

pub(crate) const STATEMENT: [Option<StatementForm>; SIZE] = [
    None, // not a kind
    Some(StatementForm::Expression), // ident
    None, // keyword
    Some(StatementForm::Expression), // boolean
    Some(StatementForm::Expression), // sizeof
    Some(StatementForm::Expression), // int
    Some(StatementForm::Expression), // float
    Some(StatementForm::Expression), // string
    None, // dollar
    Some(StatementForm::Expression), // ampersand
    Some(StatementForm::Expression), // at
    Some(StatementForm::Expression), // percent
    Some(StatementForm::Let), // colon
    Some(StatementForm::Expression), // bar
    Some(StatementForm::Assignment), // equal
    Some(StatementForm::Defer), // semicolon
    Some(StatementForm::Tilde), // tilde
    Some(StatementForm::Expression), // left_brace
    None, // right_brace
    Some(StatementForm::Expression), // left_paren
    None, // right_paren
    Some(StatementForm::Expression), // left_bracket
    None, // right_bracket
    Some(StatementForm::Expression), // bang
    Some(StatementForm::Expression), // caret
    Some(StatementForm::Expression), // backslash
    Some(StatementForm::Expression), // question
    Some(StatementForm::Expression), // dot
    Some(StatementForm::Expression), // hash
    Some(StatementForm::Expression), // star
    Some(StatementForm::Expression), // plus
    Some(StatementForm::Expression), // minus
    Some(StatementForm::Expression), // slash
    Some(StatementForm::Expression), // less
    Some(StatementForm::Expression), // greater
    Some(StatementForm::Expression), // equal_equal
    Some(StatementForm::Expression), // bang_equal
    Some(StatementForm::Expression), // less_equal
    Some(StatementForm::Expression), // greater_equal
    Some(StatementForm::Expression), // less_less
    Some(StatementForm::Expression), // greater_greater
    Some(StatementForm::Expression), // question_question
    None, // arrow
];

pub(crate) const DECLARATION: [Option<DeclarationForm>; SIZE] = [
    None, // not a kind
    None, // ident
    None, // keyword
    None, // boolean
    None, // sizeof
    None, // int
    None, // float
    None, // string
    Some(DeclarationForm::Import), // dollar
    Some(DeclarationForm::Foreign), // ampersand
    Some(DeclarationForm::Function), // at
    Some(DeclarationForm::Interface), // percent
    Some(DeclarationForm::Definition), // colon
    None, // bar
    None, // equal
    None, // semicolon
    None, // tilde
    None, // left_brace
    None, // right_brace
    None, // left_paren
    None, // right_paren
    None, // left_bracket
    None, // right_bracket
    None, // bang
    None, // caret
    None, // backslash
    None, // question
    None, // dot
    None, // hash
    None, // star
    None, // plus
    None, // minus
    None, // slash
    None, // less
    None, // greater
    None, // equal_equal
    None, // bang_equal
    None, // less_equal
    None, // greater_equal
    None, // less_less
    None, // greater_greater
    None, // question_question
    None, // arrow
];
