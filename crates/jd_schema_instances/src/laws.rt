ghost use Rattle.jd_schema_instances.specs.Choosing.{InstancesAreAlike};

/// A law, without code: of a program, instances depend on the classes of what the machine throws alone.
pub fn instances_are_alike()
    ensures { InstancesAreAlike }
{}
