// Laws of glue: the functions have no bodies, their contracts are the laws.
ghost use Rattle.scan_glue.specs.GlueWorked.{WorkedGlue, WorkedSums};

/// Glue worked out item by item by the definition, with the values that TeX shows, where it shows them.
pub fn glue_is_read()
    ensures { WorkedGlue }
{}

/// Sums, products and quotients of glue, with the values that TeX shows, where it shows them.
pub fn glue_is_summed()
    ensures { WorkedSums }
{}
