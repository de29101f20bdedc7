//! What the tables of classes tell.

use crate::words::{type_word, word};
use jd_base::{ClassId, FamilyId, FieldId, MethodId};
use jd_classes::{ClassInfo, Classes, FieldInfo, MethodInfo};
use jd_syntax::JavaType;
use row_text::{Answer, first_word};
use std::alloc::Global;

// ---- calls whose numbers are tested first

fn class_info(classes: &Classes, class: ClassId) -> Option<&ClassInfo> {
    if class.0 >= classes.class_count() {
        return None;
    }
    Some(classes.class(class))
}

fn field_info(classes: &Classes, field: FieldId) -> Option<&FieldInfo> {
    if field.0 as usize >= classes.field_count() {
        return None;
    }
    Some(classes.field(field))
}

fn method_info(classes: &Classes, method: MethodId) -> Option<&MethodInfo> {
    if method.0 as usize >= classes.method_count() {
        return None;
    }
    Some(classes.method(method))
}

fn is_subclass(classes: &Classes, a: ClassId, b: ClassId) -> Option<bool> {
    if a.0 >= classes.class_count() || b.0 >= classes.class_count() {
        return None;
    }
    Some(classes.is_subclass(a, b))
}

fn lookup(classes: &Classes, class: ClassId, name: &str) -> Option<MethodId> {
    if class.0 >= classes.class_count() {
        return None;
    }
    classes.lookup(class, name)
}

fn family(classes: &Classes, method: MethodId) -> Option<FamilyId> {
    if method.0 as usize >= classes.method_count() {
        return None;
    }
    Some(classes.family(method))
}

fn reaches(classes: &Classes, a: FamilyId, b: FamilyId) -> Option<bool> {
    if a.0 >= classes.family_count() || b.0 >= classes.family_count() {
        return None;
    }
    Some(classes.reaches(a, b))
}

fn same_cluster(classes: &Classes, a: FamilyId, b: FamilyId) -> Option<bool> {
    if a.0 >= classes.family_count() || b.0 >= classes.family_count() {
        return None;
    }
    Some(classes.same_cluster(a, b))
}

// ---- what names of rows stand for

fn class_by_name<'a>(classes: &'a Classes, name: &str) -> Option<&'a ClassInfo> {
    class_info(classes, classes.class_named(name.as_bytes())?)
}

// The method of `CLASS.NAME`, or the constructor of `CLASS.new`.
fn method_by_name(classes: &Classes, text: &str) -> Option<MethodId> {
    let (class, name) = text.split_once('.')?;
    let info = class_by_name(classes, class)?;
    if name == "new" {
        return info.constructor;
    }
    for method in &info.methods {
        if word(&method_info(classes, *method)?.name) == name {
            return Some(*method);
        }
    }
    None
}

fn family_by_name(classes: &Classes, text: &str) -> Option<FamilyId> {
    family(classes, method_by_name(classes, text)?)
}

fn below(classes: &Classes, a: &str, b: &str) -> Option<bool> {
    let a = classes.class_named(a.as_bytes())?;
    is_subclass(classes, a, classes.class_named(b.as_bytes())?)
}

fn seen(classes: &Classes, class: &str, name: &str) -> Option<MethodId> {
    lookup(classes, classes.class_named(class.as_bytes())?, name)
}

fn called(classes: &Classes, a: &str, b: &str) -> Option<bool> {
    let a = family_by_name(classes, a)?;
    reaches(classes, a, family_by_name(classes, b)?)
}

fn clustered(classes: &Classes, a: &str, b: &str) -> Option<bool> {
    let a = family_by_name(classes, a)?;
    same_cluster(classes, a, family_by_name(classes, b)?)
}

// ---- what is written

fn put_u32(answer: &mut Answer, number: u32) {
    answer.put_number(i128::from(number));
}

fn put_number(answer: &mut Answer, number: Option<u32>) {
    match number {
        Some(number) => put_u32(answer, number),
        None => answer.put("none"),
    }
}

fn put_truth(answer: &mut Answer, truth: Option<bool>) {
    match truth {
        Some(true) => answer.put("true"),
        Some(false) => answer.put("false"),
        None => answer.put("none"),
    }
}

// The name of a class.
fn class_name(classes: &Classes, class: ClassId) -> &str {
    match class_info(classes, class) {
        Some(info) => word(&info.name),
        None => "none",
    }
}

// The name of a class's member, behind that of the class.
fn put_member(answer: &mut Answer, classes: &Classes, class: ClassId, name: &[u8]) {
    answer.put(class_name(classes, class));
    answer.put(".");
    answer.put(word(name));
}

fn put_seen(answer: &mut Answer, classes: &Classes, method: Option<MethodId>) {
    let Some(method) = method else {
        return answer.put("none");
    };
    match method_info(classes, method) {
        Some(info) => put_member(answer, classes, info.class, &info.name),
        None => answer.put("none"),
    }
}

fn put_field_name(answer: &mut Answer, classes: &Classes, field: FieldId) {
    if let Some(info) = field_info(classes, field) {
        answer.put(" ");
        put_member(answer, classes, info.class, &info.name);
    }
}

fn put_fields(answer: &mut Answer, classes: &Classes, fields: &[FieldId]) {
    answer.put_number(fields.len() as i128);
    for field in fields {
        put_field_name(answer, classes, *field);
    }
}

fn put_fields_of(answer: &mut Answer, alloc: Global, classes: &Classes, class: ClassId) {
    if class.0 >= classes.class_count() {
        return answer.put("none");
    }
    match &classes.fields_of(alloc, class) {
        Ok(fields) => put_fields(answer, classes, fields),
        Err(_) => answer.lack_memory(),
    }
}

fn put_types(answer: &mut Answer, types: &[JavaType]) {
    for ty in types {
        answer.put(" ");
        answer.put(type_word(ty));
    }
}

fn put_own_fields(answer: &mut Answer, fields: &[FieldId]) {
    for field in fields {
        answer.put(" ");
        put_u32(answer, field.0);
    }
}

fn put_own_methods(answer: &mut Answer, methods: &[MethodId]) {
    for method in methods {
        answer.put(" ");
        put_u32(answer, method.0);
    }
}

fn put_constants(answer: &mut Answer, constants: &[(Vec<u8>, i128)]) {
    for (name, value) in constants {
        answer.put(" ");
        answer.put(word(name));
        answer.put("=");
        answer.put_number(*value);
    }
}

fn put_own(answer: &mut Answer, info: &ClassInfo) {
    answer.put(", fields");
    put_own_fields(answer, &info.fields);
    answer.put(", constants");
    put_constants(answer, &info.constants);
    answer.put(", constructor ");
    put_number(answer, info.constructor.map(|method| method.0));
    answer.put(", methods");
    put_own_methods(answer, &info.methods);
}

fn put_class(answer: &mut Answer, classes: &Classes, info: &ClassInfo) {
    answer.put(word(&info.name));
    answer.put(" extends ");
    match info.parent {
        Some(parent) => answer.put(class_name(classes, parent)),
        None => answer.put("none"),
    }
    answer.put(", file ");
    put_u32(answer, info.file);
    if info.decl.is_some() {
        answer.put(", declared");
    }
    put_own(answer, info);
}

fn put_field(answer: &mut Answer, classes: &Classes, info: &FieldInfo) {
    put_member(answer, classes, info.class, &info.name);
    answer.put(" ");
    answer.put(type_word(&info.ty));
}

fn put_method(answer: &mut Answer, classes: &Classes, info: &MethodInfo) {
    put_member(answer, classes, info.class, &info.name);
    answer.put(" member ");
    put_u32(answer, info.member);
    if info.is_static {
        answer.put(" static");
    }
    if info.constructor {
        answer.put(" constructor");
    }
    answer.put(", takes");
    put_types(answer, &info.params);
    answer.put(", gives ");
    match &info.result {
        Some(ty) => answer.put(type_word(ty)),
        None => answer.put("none"),
    }
}

fn put_counts(answer: &mut Answer, classes: &Classes) {
    answer.put("classes ");
    put_u32(answer, classes.class_count());
    answer.put(", fields ");
    answer.put_number(classes.field_count() as i128);
    answer.put(", methods ");
    answer.put_number(classes.method_count() as i128);
    answer.put(", families ");
    put_u32(answer, classes.family_count());
}

// ---- rows

// What the tables list at that number or name.
fn tell_info(answer: &mut Answer, classes: &Classes, word: &str, named: &str) {
    let number = named.parse::<u32>().unwrap_or(0);
    match word {
        "class" => match class_by_name(classes, named) {
            Some(info) => put_class(answer, classes, info),
            None => answer.put("none"),
        },
        "field" => match field_info(classes, FieldId(number)) {
            Some(info) => put_field(answer, classes, info),
            None => answer.put("none"),
        },
        "method" => match method_info(classes, MethodId(number)) {
            Some(info) => put_method(answer, classes, info),
            None => answer.put("none"),
        },
        _ => answer.put("no row"),
    }
}

/// Answers a row of tables.
pub(crate) fn tell(answer: &mut Answer, alloc: Global, classes: &Classes, asked: &str, rest: &str) {
    let (first, second) = first_word(rest);
    match asked {
        "tables" => answer.put("ok"),
        "counts" => put_counts(answer, classes),
        "class_named" => {
            let class = classes.class_named(first.as_bytes());
            put_number(answer, class.map(|class| class.0));
        }
        "is_subclass" => put_truth(answer, below(classes, first, second)),
        "lookup" => put_seen(answer, classes, seen(classes, first, second)),
        "fields_of" => match classes.class_named(first.as_bytes()) {
            Some(class) => put_fields_of(answer, alloc, classes, class),
            None => answer.put("none"),
        },
        "family" => {
            let family = family_by_name(classes, first);
            put_number(answer, family.map(|family| family.0));
        }
        "reaches" => put_truth(answer, called(classes, first, second)),
        "same_cluster" => put_truth(answer, clustered(classes, first, second)),
        _ => tell_info(answer, classes, asked, first),
    }
}
