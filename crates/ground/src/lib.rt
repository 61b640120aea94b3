// What every crate uses and no chip is part of: a choice by a test, bits, lists and their laws. Nothing runs here.
#![tactic(auto)]
