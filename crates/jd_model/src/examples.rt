//! Worked examples of what code does, as laws: each clause is a small program, and what the Java Language Specification (SE 8)
//! says of it.

ghost use Rattle.jd_model.specs.Examples.{SmallestByMinusOne, SmallestRestMinusOne, LargestPlusOne, SmallestLessOne, ProductsAreCut, QuotientsTowardZero, RemaindersLikeDividend, SmallestNegated, ZeroDivisor, OneByZero, LeftThrows, LeftThrowsInSum, RightThrows, RightSeesLeft, LeftIsKept, ArgumentThrows, ShortCircuits, OneIsChosen, NullBeforeIndex, IndexBeforeNull, ValueBeforeNull, OutsideIndex, IndexesOfTwo, ElementIsWritten, ArrayIsKept, NullIsCast, NullIsNoInstance, WrongCast};
ghost use Rattle.jd_model.specs.AllocationExamples.{LeastFreeNumber, FirstObject, SecondObject, TwoObjects, CreateEmpties, CreateKeepsOthers, NewFieldIsDefault, NegativeLength, BadLength, NewArrayLength, NewElementIsZero};
ghost use Rattle.jd_model.specs.ControlExamples.{ReturnReplacesException, MethodReturnsAnyway, ExceptionGoesOn, ExceptionReplacesReturn, ReturnedValueStays, HandlerRuns, ReturnPassesHandler, StopPasses, BreakThroughFinally, BreakToOther, LoopCounts, EndlessLoop, LoopIsLeft, RunTimeClass, CallOnNull, ArgumentBeforeNull, CallAtDepthZero, NoSuchMethod, EndlessRecursion, LegsOfAnimal, LegsOfBird, FeetOfBird, FeetNeedDepth, BirdIsAnimal, AnimalIsNoBird};

/// Arithmetic on 32 bits (JLS 15.15.4, 15.17, 15.18).
pub fn arithmetic_examples()
    ensures smallest_by_minus_one { SmallestByMinusOne }
    ensures smallest_rest_minus_one { SmallestRestMinusOne }
    ensures largest_plus_one { LargestPlusOne }
    ensures smallest_less_one { SmallestLessOne }
    ensures products { ProductsAreCut }
    ensures quotients { QuotientsTowardZero }
    ensures remainders { RemaindersLikeDividend }
    ensures smallest_negated { SmallestNegated }
{}

/// A zero divisor throws (JLS 15.17.2, 15.17.3).
pub fn zero_divisor_examples()
    ensures zero_divisor { ZeroDivisor }
    ensures one_by_zero { OneByZero }
{}

/// Operands go from left to right, and the first exception leaves (JLS 15.7, 15.23 to 15.25).
pub fn operand_order_examples()
    ensures left_throws { LeftThrows }
    ensures left_throws_in_sum { LeftThrowsInSum }
    ensures right_throws { RightThrows }
    ensures right_sees_left { RightSeesLeft }
    ensures left_is_kept { LeftIsKept }
    ensures argument_throws { ArgumentThrows }
    ensures short_circuits { ShortCircuits }
    ensures one_is_chosen { OneIsChosen }
{}

/// Elements of arrays: the operands, then null, then the index (JLS 10.4, 15.10.4, 15.26.1).
pub fn array_access_examples()
    ensures null_before_index { NullBeforeIndex }
    ensures index_before_null { IndexBeforeNull }
    ensures value_before_null { ValueBeforeNull }
    ensures outside_index { OutsideIndex }
    ensures indexes_of_two { IndexesOfTwo }
    ensures element_is_written { ElementIsWritten }
    ensures array_is_kept { ArrayIsKept }
{}

/// Which object an allocation gives, and what it holds (JLS 4.12.5, 15.9.4).
pub fn allocation_examples()
    ensures least_free_number { LeastFreeNumber }
    ensures first_object { FirstObject }
    ensures second_object { SecondObject }
    ensures two_objects { TwoObjects }
    ensures create_empties { CreateEmpties }
    ensures create_keeps_others { CreateKeepsOthers }
    ensures new_field_is_default { NewFieldIsDefault }
{}

/// New arrays and their lengths (JLS 10.3, 15.10.2).
pub fn array_creation_examples()
    ensures negative_length { NegativeLength }
    ensures bad_length { BadLength }
    ensures new_array_length { NewArrayLength }
    ensures new_element_is_zero { NewElementIsZero }
{}

/// Casts and `instanceof` (JLS 5.5.3, 15.16, 15.20.2).
pub fn cast_examples()
    ensures null_is_cast { NullIsCast }
    ensures null_is_no_instance { NullIsNoInstance }
    ensures wrong_cast { WrongCast }
    ensures bird_is_animal { BirdIsAnimal }
    ensures animal_is_no_bird { AnimalIsNoBird }
{}

/// How `finally` and handlers meet the ends of code, and `stop` passes them (JLS 14.17, 14.20).
pub fn finally_examples()
    ensures return_replaces_exception { ReturnReplacesException }
    ensures method_returns_anyway { MethodReturnsAnyway }
    ensures exception_goes_on { ExceptionGoesOn }
    ensures exception_replaces_return { ExceptionReplacesReturn }
    ensures returned_value_stays { ReturnedValueStays }
    ensures handler_runs { HandlerRuns }
    ensures return_passes_handler { ReturnPassesHandler }
    ensures stop_passes { StopPasses }
{}

/// `break` and its label (JLS 14.15).
pub fn break_examples()
    ensures break_through_finally { BreakThroughFinally }
    ensures break_to_other { BreakToOther }
    ensures loop_is_left { LoopIsLeft }
{}

/// Loops and their number of turns (JLS 14.12).
pub fn loop_examples()
    ensures loop_counts { LoopCounts }
    ensures endless_loop { EndlessLoop }
{}

/// Calls: the method of the object's class, null, and the depth (JLS 15.12.4).
pub fn call_examples()
    ensures run_time_class { RunTimeClass }
    ensures call_on_null { CallOnNull }
    ensures argument_before_null { ArgumentBeforeNull }
    ensures call_at_depth_zero { CallAtDepthZero }
    ensures no_such_method { NoSuchMethod }
    ensures endless_recursion { EndlessRecursion }
    ensures legs_of_animal { LegsOfAnimal }
    ensures legs_of_bird { LegsOfBird }
    ensures feet_of_bird { FeetOfBird }
    ensures feet_need_depth { FeetNeedDepth }
{}
