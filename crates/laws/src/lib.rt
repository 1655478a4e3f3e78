// Facts that no layer owns: answers, bytes, exclusive or, lists, blocks, tables. Nothing here runs.
#![tactic(auto)]
