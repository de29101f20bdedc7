//! Why texts and files are refused, and where.

use crate::words::word;
use jd_classes::ClassRefusal;
use jd_files::FilesRefusal;
use jd_jparse::ParseRefusal;
use jd_lex::LexRefusal;
use jd_source::SourceRefusal;
use row_text::Answer;

fn put_at(answer: &mut Answer, refusal: &str, at: u32) {
    answer.put(refusal);
    answer.put_number(i128::from(at));
}

pub(crate) fn put_fault(answer: &mut Answer, refusal: &LexRefusal) {
    match refusal {
        LexRefusal::BadByte { at, .. } => put_at(answer, "BadByte ", *at),
        LexRefusal::OpenComment { at, .. } => put_at(answer, "OpenComment ", *at),
        LexRefusal::BigLiteral { at, .. } => put_at(answer, "BigLiteral ", *at),
        LexRefusal::NoMemory => answer.lack_memory(),
    }
}

pub(crate) fn put_misfit(answer: &mut Answer, refusal: &ParseRefusal) {
    match refusal {
        ParseRefusal::Syntax { at, .. } => put_at(answer, "Syntax ", *at),
        ParseRefusal::Unsupported { at, what, .. } => {
            put_at(answer, "Unsupported ", *at);
            answer.put(" ");
            answer.put(word(what));
        }
        ParseRefusal::TooDeep { at, .. } => put_at(answer, "TooDeep ", *at),
        ParseRefusal::NoMemory => answer.lack_memory(),
    }
}

pub(crate) fn put_reason(answer: &mut Answer, refusal: &SourceRefusal) {
    match refusal {
        SourceRefusal::Lexical(refusal) => put_fault(answer, refusal),
        SourceRefusal::Grammatical(refusal) => put_misfit(answer, refusal),
    }
}

fn put_in_file(answer: &mut Answer, refusal: &str, file: u32, at: u32) {
    put_at(answer, refusal, file);
    put_at(answer, " ", at);
}

fn put_class_refusal(answer: &mut Answer, refusal: ClassRefusal) {
    match refusal {
        ClassRefusal::DuplicateClass { file, at } => put_in_file(
            answer,
            "DuplicateClass ",
            file,
            at,
        ),
        ClassRefusal::UnknownSuper { file, at } => put_in_file(answer, "UnknownSuper ", file, at),
        ClassRefusal::CyclicExtends { file, at } => put_in_file(answer, "CyclicExtends ", file, at),
        ClassRefusal::DuplicateMember { file, at } => put_in_file(
            answer,
            "DuplicateMember ",
            file,
            at,
        ),
        ClassRefusal::Hiding { file, at } => put_in_file(answer, "Hiding ", file, at),
        ClassRefusal::Overload { file, at } => put_in_file(answer, "Overload ", file, at),
        ClassRefusal::BadOverride { file, at } => put_in_file(answer, "BadOverride ", file, at),
        ClassRefusal::TooManyClasses => answer.put("TooManyClasses"),
        ClassRefusal::TooManyMethods => answer.put("TooManyMethods"),
        ClassRefusal::NoMemory => answer.lack_memory(),
    }
}

/// The file's number comes first where one of the files is none.
pub(crate) fn put_files_refusal(answer: &mut Answer, refusal: &FilesRefusal) {
    match refusal {
        FilesRefusal::File(number, refusal) => {
            answer.put_number(i128::from(*number));
            answer.put(" ");
            put_reason(answer, refusal);
        }
        FilesRefusal::Classes(refusal) => put_class_refusal(answer, *refusal),
        FilesRefusal::NoMemory => answer.lack_memory(),
    }
}
