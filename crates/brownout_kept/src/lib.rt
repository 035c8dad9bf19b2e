// What the brownout check calls sound stays sound (document 02, Eight, beyond the request).
//
// No code: an accepted append to a store that the check calls sound leaves one that it calls sound, whoever wrote that
// memory. So one check after a brownout vouches for the rest of the shift. It uses brownout_faults, and of the
// histories their calls and the laws of tables and blocks.
#![tactic(auto)]
