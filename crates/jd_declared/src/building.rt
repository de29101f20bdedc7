//! What a program declares, from the tables of its classes.

ghost use Rattle.std.specs.Prelude.{◌≡◌, ◌∷◌, ◌<◌, ◌≤◌, ℕ, List, [], Option, Some, IfOk, OnOk, length, map, option_map};
ghost use Rattle.std.specs.List.{slice_get};
ghost use Rattle.jd_bodies.specs.Declarations.{AreDeclarations, type_by};
ghost use Rattle.jd_classes.specs.Tables.{AreTables, class_count_of, method_count_of};
ghost use Rattle.jd_declared.specs.Named.{first_named, then_named, value_at};
ghost use Rattle.jd_declared.specs.Owned.{constant_pair, field_pairs, methods_in, methods_of, signature_by, variables_in, variables_of};
ghost use Rattle.jd_declared.specs.Told.{own_value, routine_view, told};
ghost use Rattle.jd_jclasses.specs.Classes.{class_named, parents};
ghost use Rattle.jd_jclasses.specs.Members.{declared_members};
ghost use Rattle.jd_jinfos.specs.Infos.{class_infos, field_infos, method_infos};
ghost use Rattle.jd_jinfos.specs.Views.{class_info_view, class_number, constant_view, field_number, method_info_view, method_number};
ghost use Rattle.jd_syntax.specs.JavaTrees.{JavaUnit};
ghost use Rattle.jd_syntax.specs.JavaTypes.{type_view};

use crate::declared::{Declared, Routine};
use crate::named::Named;
use jd_ancestry::depths;
use jd_base::{ClassId, FieldId, MethodId, NoMemory};
use jd_bodies::{ValueType, Variable};
use jd_classes::{ClassInfo, Classes, MethodInfo};
use jd_syntax::JavaType;
use std::alloc::Global;

// The type that a written one stands for.
fn type_of(numbers: &Named<u32>, written: &JavaType) -> ValueType
    ensures { result ≡ type_by (value_at numbers.now) (type_view written.now) }
{
    match written {
        JavaType::Int => ValueType::Int,
        JavaType::Boolean => ValueType::Boolean,
        JavaType::IntArray => ValueType::IntArray,
        JavaType::Named(name) => match numbers.value(name) {
            None => ValueType::Missing,
            Some(c) => ValueType::Class(c),
        },
    }
}

// The classes' numbers by their names.
fn class_numbers(alloc: Global, classes: &Classes) -> Result<Named<u32>, NoMemory>
    ensures { (units : List JavaUnit) → AreTables units classes.now → IfOk result (λ m. (q : List ℕ) → value_at m q ≡ class_named units q) }
{
    let mut numbers = Named::new(alloc);
    for class in 0..classes.class_count() {
        numbers.add(alloc, &classes.class(ClassId(class)).name, class)?;
    }
    Ok(numbers)
}

fn class_id(class: Option<ClassId>) -> Option<u32>
    ensures { result ≡ option_map class_number class }
{
    match class {
        Some(c) => Some(c.0),
        None => None,
    }
}

fn method_id(method: Option<MethodId>) -> Option<u32>
    ensures { result ≡ option_map method_number method }
{
    match method {
        Some(m) => Some(m.0),
        None => None,
    }
}

// What each class extends.
fn parents_of(alloc: Global, classes: &Classes) -> Result<Vec<Option<u32>>, NoMemory>
    ensures { (units : List JavaUnit) → AreTables units classes.now → IfOk result (λ v. v.items ≡ parents units) }
{
    let mut extended = Vec::new(alloc);
    for class in 0..classes.class_count() {
        extended.push(class_id(classes.class(ClassId(class)).parent))?;
    }
    Ok(extended)
}

// The constructor that each class declares.
fn constructors_of(alloc: Global, classes: &Classes) -> Result<Vec<Option<u32>>, NoMemory>
    ensures { (units : List JavaUnit) → AreTables units classes.now → IfOk result (λ v. v.items ≡ map (λ i. i.own.constructor) (class_infos units)) }
{
    let mut constructors = Vec::new(alloc);
    for class in 0..classes.class_count() {
        constructors.push(method_id(classes.class(ClassId(class)).constructor))?;
    }
    Ok(constructors)
}

// A field by its name.
fn add_field(
    alloc: Global,
    numbers: &Named<u32>,
    classes: &Classes,
    field: FieldId,
    own: &mut Named<Variable>,
) -> Result<(), NoMemory>
    ensures { (units : List JavaUnit) → AreTables units classes.now
        → OnOk result ((q : List ℕ) → value_at own.new q ≡ then_named (value_at own.old q) (field_pairs (field_infos units) (value_at numbers.now) (field.0 ∷ [])) q) }
{
    if (field.0 as usize) >= classes.field_count() {
        return Ok(());
    }
    let info = classes.field(field);
    let variable = Variable::Field(field.0, type_of(numbers, &info.ty));
    own.add(alloc, &info.name, variable)
}

// The fields of a class by their names.
fn add_fields(
    alloc: Global,
    numbers: &Named<u32>,
    classes: &Classes,
    fields: &[FieldId],
    own: &mut Named<Variable>,
) -> Result<(), NoMemory>
    ensures { (units : List JavaUnit) → AreTables units classes.now
        → OnOk result ((q : List ℕ) → value_at own.new q ≡ then_named (value_at own.old q) (field_pairs (field_infos units) (value_at numbers.now) (map field_number fields.now)) q) }
{
    for field in fields {
        add_field(alloc, numbers, classes, *field, own)?;
    }
    Ok(())
}

// The constants of a class by their names.
fn add_constants(
    alloc: Global,
    constants: &[(Vec<u8>, i128)],
    own: &mut Named<Variable>,
) -> Result<(), NoMemory>
    ensures { OnOk result ((q : List ℕ) → value_at own.new q ≡ then_named (value_at own.old q) (map constant_pair (map constant_view constants.now)) q) }
{
    for constant in constants {
        own.add(alloc, &constant.0, Variable::Constant(constant.1))?;
    }
    Ok(())
}

// The fields and constants of a class by their names.
fn own_variables(
    alloc: Global,
    numbers: &Named<u32>,
    classes: &Classes,
    info: &ClassInfo,
) -> Result<Named<Variable>, NoMemory>
    ensures { (units : List JavaUnit) → AreTables units classes.now
        → IfOk result (λ m. (q : List ℕ) → value_at m q ≡ first_named (variables_in (field_infos units) (value_at numbers.now) (class_info_view info.now).own) q) }
{
    let mut own = Named::new(alloc);
    add_fields(alloc, numbers, classes, &info.fields, &mut own)?;
    add_constants(alloc, &info.constants, &mut own)?;
    Ok(own)
}

// The same of each class.
fn variables_of_each(
    alloc: Global,
    numbers: &Named<u32>,
    classes: &Classes,
) -> Result<Vec<Named<Variable>>, NoMemory>
    ensures each { (units : List JavaUnit) → AreTables units classes.now
        → IfOk result (λ v. (q : List ℕ) (c : ℕ) → c < length (parents units) → own_value v.items q c ≡ first_named (variables_of units (value_at numbers.now) c) q) }
    ensures many { IfOk result (λ v. length v.items ≡ class_count_of classes.now) }
{
    let mut each = Vec::new(alloc);
    for class in 0..classes.class_count() {
        let own = own_variables(alloc, numbers, classes, classes.class(ClassId(class)))?;
        each.push(own)?;
    }
    Ok(each)
}

// A method by its name.
fn add_method(
    alloc: Global,
    classes: &Classes,
    method: MethodId,
    own: &mut Named<u32>,
) -> Result<(), NoMemory>
    ensures { (units : List JavaUnit) → AreTables units classes.now
        → OnOk result ((q : List ℕ) → value_at own.new q ≡ then_named (value_at own.old q) (methods_in (method_infos units) (method.0 ∷ [])) q) }
{
    if (method.0 as usize) >= classes.method_count() {
        return Ok(());
    }
    own.add(alloc, &classes.method(method).name, method.0)
}

// The methods of a class by their names.
fn own_methods(
    alloc: Global,
    classes: &Classes,
    methods: &[MethodId],
) -> Result<Named<u32>, NoMemory>
    ensures { (units : List JavaUnit) → AreTables units classes.now
        → IfOk result (λ m. (q : List ℕ) → value_at m q ≡ first_named (methods_in (method_infos units) (map method_number methods.now)) q) }
{
    let mut own = Named::new(alloc);
    for method in methods {
        add_method(alloc, classes, *method, &mut own)?;
    }
    Ok(own)
}

// The same of each class.
fn methods_of_each(alloc: Global, classes: &Classes) -> Result<Vec<Named<u32>>, NoMemory>
    ensures each { (units : List JavaUnit) → AreTables units classes.now
        → IfOk result (λ v. (q : List ℕ) (c : ℕ) → c < length (parents units) → own_value v.items q c ≡ first_named (methods_of units c) q) }
    ensures many { IfOk result (λ v. length v.items ≡ class_count_of classes.now) }
{
    let mut each = Vec::new(alloc);
    for class in 0..classes.class_count() {
        let own = own_methods(alloc, classes, &classes.class(ClassId(class)).methods)?;
        each.push(own)?;
    }
    Ok(each)
}

// The types that written ones stand for.
fn types_of(
    alloc: Global,
    numbers: &Named<u32>,
    written: &[JavaType],
) -> Result<Vec<ValueType>, NoMemory>
    ensures { IfOk result (λ v. v.items ≡ map (type_by (value_at numbers.now)) (map type_view written.now)) }
{
    let mut types = Vec::new(alloc);
    for t in written {
        types.push(type_of(numbers, t))?;
    }
    Ok(types)
}

// What a method or constructor takes and gives.
fn routine_of(alloc: Global, numbers: &Named<u32>, info: &MethodInfo) -> Result<Routine, NoMemory>
    ensures { IfOk result (λ r. routine_view r ≡ signature_by (value_at numbers.now) (method_info_view info.now)) }
{
    let parameters = types_of(alloc, numbers, &info.params)?;
    let result = match &info.result {
        Some(t) => Some(type_of(numbers, t)),
        None => None,
    };
    Ok(Routine {
        class: info.class.0,
        is_static: info.is_static,
        parameters,
        result,
    })
}

// The same of each.
fn routines_of(
    alloc: Global,
    numbers: &Named<u32>,
    classes: &Classes,
) -> Result<Vec<Routine>, NoMemory>
    requires { method_count_of classes.now ≤ 4294967295 }
    ensures { (units : List JavaUnit) → AreTables units classes.now → IfOk result (λ v. map routine_view v.items ≡ map (signature_by (value_at numbers.now)) (method_infos units)) }
{
    let mut routines = Vec::new(alloc);
    for method in 0..classes.method_count() {
        let id = MethodId(method as u32);
        routines.push(routine_of(alloc, numbers, classes.method(id))?)?;
    }
    Ok(routines)
}

impl Declared {
    /// What a program declares, in time and memory that grow as its classes and members.
    ///
    /// # Errors
    ///
    /// `NoMemory` if memory runs out.
    pub fn of(alloc: Global, classes: &Classes) -> Result<Declared, NoMemory>
        requires { (units : List JavaUnit) × AreTables units classes.now }
        ensures { (units : List JavaUnit) → AreTables units classes.now → IfOk result (λ d. AreDeclarations units (told d)) }
    {
        let numbers = class_numbers(alloc, classes)?;
        let parents = parents_of(alloc, classes)?;
        let depths = depths(alloc, &parents)?;
        let variables = variables_of_each(alloc, &numbers, classes)?;
        let methods = methods_of_each(alloc, classes)?;
        let constructors = constructors_of(alloc, classes)?;
        let routines = routines_of(alloc, &numbers, classes)?;
        Ok(Declared {
            classes: numbers,
            parents,
            depths,
            variables,
            methods,
            constructors,
            routines,
        })
    }
}
